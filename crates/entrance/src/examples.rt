// The worked examples: bytes, and what the reader and the rules say of them.
ghost use Rattle.entrance.specs.Examples.{ExamplesStand};

/// The worked examples of the rules stand.
pub fn examples_stand()
    ensures { ExamplesStand }
{}
