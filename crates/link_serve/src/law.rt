// What holds of every link that was served, as a function that does nothing and ensures it.

ghost use Rattle.link_serve.specs.Serving.{ServingGoesOn};

/// What is said of a link by one journal is said by each that goes on from it and has no further entries of the link.
pub fn serving_goes_on()
    ensures { ServingGoesOn }
{}
