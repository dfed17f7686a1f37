ghost use Rattle.std.specs.Prelude.{◌≡◌, Option};

// Stays: a closure in its place would ask of the caller that it may be called, and no public function asks anything.
// What goes over the items of a list, one after the other, and says what each becomes, if it stays.
pub trait Sieve<T> {
    ghost left: { Self → T → Option T };

    ghost after: { Self → T → Self };

    fn pass(&mut self, item: T) -> Option<T>
        ensures item { result ≡ left self.old item }
        ensures sieve { self.new ≡ after self.old item };
}
