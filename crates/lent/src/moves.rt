// Elements that move within a slice.
ghost use Rattle.std.specs.Prelude.{◌≡◌, ◌-◌, ◌<◌, ◌≤◌, [], ◌∷◌, ◌++◌, length, take, drop, replicate};
ghost use Rattle.std.specs.List.{insert, remove};
ghost use Rattle.lent.specs.Sifting.{sifted};

use crate::sieve::Sieve;

// Writes `x` over every element.
// Stays: the library's `fill` asks that a clone of `x` can't fail, which the bound does not tell.
pub(crate) fn fill<T: Copy>(xs: &mut [T], x: T)
    ensures { xs.new ≡ replicate (length xs.old) x }
{
    for place in xs.iter_mut() {
        *place = x;
    }
}

// Puts `x` at `i`, and those from there on one place on, over the last one.
pub(crate) fn open_at<T: Copy>(xs: &mut [T], i: usize, x: T)
    requires { i < length xs.old }
    ensures { xs.new ≡ insert (take (length xs.old - 1) xs.old) i x }
{
    let part = &mut xs[i..];
    part.rotate_right(1);
    part[0] = x;
}

// Takes the one at `i` out, and puts those behind it one place back and `x` at the end.
pub(crate) fn close_at<T: Copy>(xs: &mut [T], i: usize, x: T)
    requires { i < length xs.old }
    ensures { xs.new ≡ remove xs.old i ++ x ∷ [] }
{
    let part = &mut xs[i..];
    part.rotate_left(1);
    let last = part.len() - 1;
    part[last] = x;
}

// Stays: what is left is written into the slice that is read, so no iterator can lend it; the library has no such method of a slice.
// Passes those from `from` on through the sieve, puts what it leaves one behind the other, and says how many there are then in all.
pub(crate) fn sift_from<T: Copy, S: Sieve<T>>(xs: &mut [T], from: usize, sieve: &mut S) -> usize
    requires { from ≤ length xs.old }
    ensures count { result ≡ length (take from xs.old ++ sifted S.left S.after sieve.old (drop from xs.old)) }
    ensures front { take result xs.new ≡ take from xs.old ++ sifted S.left S.after sieve.old (drop from xs.old) }
    ensures fewer { result ≤ length xs.old }
{
    let mut left = from;
    for i in from..xs.len() {
        if let Some(x) = sieve.pass(xs[i]) {
            xs[left] = x;
            left += 1;
        }
    }
    left
}
