// What a document says.

// The title and the body of a document, where they lie.
#[derive(Clone, Copy)]
pub struct Texts<'a> {
    pub title: &'a [u8],
    pub body: &'a [u8],
}
