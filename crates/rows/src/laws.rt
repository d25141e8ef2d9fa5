// The laws of rows, each on the contract of a function.
ghost use Rattle.rows.specs.Laws.{OrderStands, PagesStand, CursorStands, PackingStands, SearchStands, MergingStands};

// The order of rows is a strict total order.
#[tactic(auto, using(crate::proofs::Ordered::order_laws))]
pub fn order_stands()
    ensures { OrderStands }
{}

// What was put on a page is read, at the offset where it stands, and what is read fits.
#[tactic(auto, using(crate::proofs::Read::page_laws))]
pub fn pages_stand()
    ensures { PagesStand }
{}

// A cursor sees a list: the row under it is the first, past it it sees the others, and at the end none.
#[tactic(auto, using(crate::proofs::Sight::cursor_laws))]
pub fn cursor_stands()
    ensures { CursorStands }
{}

// Packing keeps the rows and their order, fills the pages, and is done page by page.
#[tactic(auto, using(crate::proofs::Packed::packing_laws))]
pub fn packing_stands()
    ensures { PackingStands }
{}

// The search halves the pages with each step, and its end is the first row whose key is not earlier than the key.
#[tactic(auto, using(crate::proofs::Found::search_laws))]
pub fn search_stands()
    ensures { SearchStands }
{}

// The merge of sorted lists is the sorted list of all their rows.
#[tactic(auto, using(crate::proofs::Merged::merging_laws))]
pub fn merging_stands()
    ensures { MergingStands }
{}
