// The laws of the rows of a document.
ghost use Rattle.places.specs.Laws.{PlacesStand};

// Rows in order are the same rows, and a document's rows are all different, its name's first.
#[tactic(auto, using(crate::proofs::Numbered::places_laws))]
pub fn places_stand()
    ensures { PlacesStand }
{}
