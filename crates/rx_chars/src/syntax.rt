/// The syntax in which a page is written: the HTML Standard's HTML syntax, or its XML syntax, which is called XHTML
/// here. It is chosen by the caller; nothing in the page is asked for it.
#[derive(Clone, Copy, Debug, Drop, PartialEq, Eq)]
pub enum Syntax {
    Html,
    Xhtml,
}
