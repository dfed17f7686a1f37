// What a change of the values in a span does to one record after the other.
ghost use Rattle.std.specs.Prelude.{◌≡◌};
ghost use Rattle.slots.specs.Settlings.{made_by, left_by, after_by};

use crate::change::Change;
use crate::slot::Slot;
use crate::span::Span;
use crate::value::Value;
use lent::sieve::Sieve;

// Changes the records of the span, and lets those go that then repeat the value before them.
#[derive(Drop)]
pub(crate) struct Settling<'c, V, C> {
    pub(crate) span: Span,
    pub(crate) how: &'c C,
    pub(crate) before: V,
}

impl<'c, V: Value, C: Change<V>> Settling<'c, V, C> {
    // The record with its value changed, if it stands in the span.
    fn remade(&self, s: Slot<V>) -> Slot<V>
        ensures { result ≡ made_by C.changed self.now s }
    {
        if self.span.holds(s.minute) {
            Slot {
                minute: s.minute,
                value: self.how.apply(s.value),
            }
        } else {
            s
        }
    }
}

impl<'c, V: Value, C: Change<V>> Sieve<Slot<V>> for Settling<'c, V, C> {
    ghost left = { left_by V.alike C.changed };

    ghost after = { after_by C.changed };

    fn pass(&mut self, item: Slot<V>) -> Option<Slot<V>> {
        let s = self.remade(item);
        let repeats = s.value.same(self.before);
        self.before = s.value;
        if repeats { None } else { Some(s) }
    }
}
