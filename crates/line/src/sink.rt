// Where bits go.
ghost use Rattle.std.specs.Prelude.{Bool, List, [], ◌∷◌, ◌++◌};

pub trait Sink {
    // from one state to another, these bits went in
    ghost takes: { Self → List Bool → Self → Type 0 };

    fn put(&mut self, bit: bool)
        ensures { takes self.old (bit ∷ []) self.new };

    ghost nothing: { (p : Self) → takes p [] p };

    // one stretch of bits after another
    ghost more: { (p q r : Self) (xs ys : List Bool) → takes p xs q → takes q ys r → takes p (xs ++ ys) r };
}
