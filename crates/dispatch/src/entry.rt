// One line of a sheet on the board.
ghost use Rattle.std.specs.Prelude.{◌≡◌, Ok};
ghost use Rattle.units.specs.Crews.{crew_kind};
ghost use Rattle.board.specs.Calls.{given, move, hold, answer, after};
ghost use Rattle.board.specs.Results.{Takes};
ghost use Rattle.board.specs.Views.{holding, SameMemory};
ghost use Rattle.planning.specs.Rules.{earliest_start};
ghost use Rattle.sheet.specs.Items.{content_of};
ghost use Rattle.dispatch.specs.Running.{settling, hold_reply, hold_leaves, move_reply, answered, after_line, ordered, after_order};
ghost use Rattle.dispatch.specs.Grants.{booking_in, told};

use board::board::Board;
use board::grant::Grant;
use bookings::refusal::Refusal;
use planning::policy::EARLIEST_START;
use planning::request::Request;
use sheet::answer::Answer;
use sheet::item::Item;
use sheet::order::Order;
use units::crew::Crew;

// Confirms a booking that starts by the welcome minute, and releases any other.
fn settle(board: &mut Board<'_, Crew>, grant: Grant<Crew>, welcome: u32) -> Answer
    requires { Takes crew_kind (holding board.old) (Ok grant) }
    ensures answer { result ≡ hold_reply welcome (given grant.number (booking_in grant)) }
    ensures board { holding board.new ≡ after crew_kind (holding board.old) (move (settling welcome (booking_in grant)) grant.number) }
    ensures memory { SameMemory board.old board.new }
{
    let Grant {
        number,
        start,
        end: _,
        claim,
        token,
    } = grant;
    if start <= welcome {
        board.confirm(token).unwrap();
        Answer::Granted {
            number,
            start,
            claim: claim.mask,
        }
    } else {
        board.release(token).unwrap();
        Answer::Late { number, start }
    }
}

// Holds by the earliest start, and settles what is granted.
fn held(board: &mut Board<'_, Crew>, request: Request, welcome: u32) -> Result<Answer, Refusal>
    ensures answer { told result ≡ hold_reply welcome (answer crew_kind (holding board.old) (hold request earliest_start)) }
    ensures board { holding board.new ≡ hold_leaves welcome (after crew_kind (holding board.old) (hold request earliest_start)) (answer crew_kind (holding board.old) (hold request earliest_start)) }
    ensures memory { SameMemory board.old board.new }
{
    let grant = board.hold(request, &EARLIEST_START)?;
    Ok(settle(board, grant, welcome))
}

// Does what the order says.
fn obey(board: &mut Board<'_, Crew>, order: Order) -> Result<Answer, Refusal>
    ensures answer { told result ≡ ordered (holding board.old) order }
    ensures board { holding board.new ≡ after_order (holding board.old) order }
    ensures memory { SameMemory board.old board.new }
{
    match order {
        Order::Hold {
            ready,
            duration,
            deadline,
            wanted,
            welcome,
        } => {
            let request = Request {
                ready,
                duration,
                deadline,
                wanted,
            };
            held(board, request, welcome)
        }
        Order::Cancel(number) => board.cancel(number).map(|()| Answer::Done),
        Order::Begin(number) => board.begin(number).map(|()| Answer::Done),
        Order::Finish(number) => board.finish(number).map(|()| Answer::Done),
        Order::List => Ok(Answer::Listed),
    }
}

// The answer to a line, which a bad line gets as a refusal, and a remark in silence.
pub fn run_line(board: &mut Board<'_, Crew>, item: Item<'_>) -> Answer
    ensures answer { result ≡ answered (holding board.old) (content_of item.entry) }
    ensures board { holding board.new ≡ after_line (holding board.old) (content_of item.entry) }
    ensures memory { SameMemory board.old board.new }
{
    match item {
        Item::Entry(_, order) => {
            obey(board, order).unwrap_or_else(|refusal| Answer::Refused(u32::from(refusal)))
        }
        Item::Remark(_) => Answer::Silent,
        Item::Bad(_) => Answer::Refused(u32::from(Refusal::BadLine)),
    }
}
