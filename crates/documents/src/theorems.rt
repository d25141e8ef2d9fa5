// What holds of all documents on pages, each as a theorem on a contract.
ghost use Rattle.documents.specs.Pages.{PagesStand};
ghost use Rattle.documents.specs.Room.{RoomSuffices};

// Documents take less than eight times their weight, so that what is asked and what is coming fit one half of a device.
#[tactic(auto, using(crate::proofs::Room::room))]
pub fn room_suffices()
    ensures { RoomSuffices }
{}

// The pages of a document, its header, and how it is put together again from its pages.
#[tactic(auto, using(crate::proofs::Pages::stand))]
pub fn pages_stand()
    ensures { PagesStand }
{}
