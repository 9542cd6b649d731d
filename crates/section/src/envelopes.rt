// Both envelopes of a section after a step. The number is stored always, so that the loops have no branch.
ghost use Rattle.std.specs.Prelude.{◌≡◌};
ghost use Rattle.recurrence.specs.Step.{raised, lowered};

// The greater of the highest head so far and a head.
pub fn greater(highest: f64, head: f64) -> f64
    ensures { result ≡ raised highest head }
{
    if highest < head { head } else { highest }
}

// The lesser of the lowest head so far and a head.
pub fn lesser(lowest: f64, head: f64) -> f64
    ensures { result ≡ lowered lowest head }
{
    if head < lowest { head } else { lowest }
}
