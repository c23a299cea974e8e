/// Why a line of text is refused.
#[derive(Clone, Copy, Debug, PartialEq, Eq)]
pub enum TextReason {
    /// It has not the form of any line.
    Syntax,
    /// Only its numbers keep it from being a line.
    Number,
    /// A label that stands twice.
    LabelTwice,
    /// A label that stands nowhere.
    LabelUnknown,
    /// A directive that is unknown, or not in its place.
    Directive,
}

/// The first line of a text that is refused, counted from 1.
#[derive(Clone, Copy, Debug, PartialEq, Eq)]
pub struct TextFault {
    pub line: u64,
    pub reason: TextReason,
}
