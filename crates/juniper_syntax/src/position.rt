//! Places in a text (section 2.1 of the Specification, and 7.1.2 for how an answer shows them).

ghost use Rattle.std.specs.Prelude.{◌≡◌};
ghost use Rattle.graphql_spec.specs.Positions as spec;
ghost use Rattle.graphql_spec.specs.Positions.{origin};
ghost use Rattle.juniper_syntax.specs.Positions.{view_position};

/// A place between two characters of a text: how many bytes, lines and characters of its line stand before it. All three
/// count from 0; LF, CR and CR LF each end a line once.
#[derive(Clone, Copy, Debug, PartialEq, Eq, PartialOrd, Ord, Hash)]
pub struct SourcePosition {
    index: usize,
    line: usize,
    column: usize,
}

impl SourcePosition {
    /// The place with these counts.
    pub fn new(index: usize, line: usize, column: usize) -> Self
        ensures { view_position result ≡ record { index = index; line = line; column = column } }
    {
        SourcePosition {
            index,
            line,
            column,
        }
    }

    /// The place at the beginning of a text.
    pub fn new_origin() -> Self
        ensures { view_position result ≡ origin }
    {
        SourcePosition {
            index: 0,
            line: 0,
            column: 0,
        }
    }

    /// How many bytes stand before it.
    pub fn index(&self) -> usize
        ensures { result ≡ (view_position self.now).index }
    {
        self.index
    }

    /// How many lines end before it.
    pub fn line(&self) -> usize
        ensures { result ≡ (view_position self.now).line }
    {
        self.line
    }

    /// How many characters of its line stand before it.
    pub fn column(&self) -> usize
        ensures { result ≡ (view_position self.now).column }
    {
        self.column
    }
}

/// From the first character of a part of a text to after its last.
#[derive(Clone, Copy, Debug, PartialEq, Eq, PartialOrd, Ord, Hash)]
pub struct Span {
    pub start: SourcePosition,
    pub end: SourcePosition,
}

/// A part of a text, and where it stands.
#[derive(Clone, Copy, Debug, Drop, PartialEq, Eq, PartialOrd, Ord, Hash)]
pub struct Spanning<T, Sp> {
    pub item: T,
    pub span: Sp,
}

impl<T, Sp> Spanning<T, Sp> {
    /// The item at the span.
    pub fn new(span: Sp, item: T) -> Self
        ensures span { result.span ≡ span }
        ensures item { result.item ≡ item }
    {
        Spanning { item, span }
    }

    /// The item and the span, borrowed.
    pub fn as_ref(&self) -> Spanning<&T, &Sp>
        ensures item { result.item.now ≡ self.now.item }
        ensures span { result.span.now ≡ self.now.span }
    {
        Spanning {
            item: &self.item,
            span: &self.span,
        }
    }
}

impl<T> Spanning<T, Span> {
    /// The item, at the beginning of the text, for what was not read from one.
    pub fn unlocated(item: T) -> Self
        ensures item { result.item ≡ item }
        ensures start { view_position result.span.start ≡ origin }
        ensures end { view_position result.span.end ≡ origin }
    {
        let start = SourcePosition::new_origin();
        Spanning {
            item,
            span: Span { start, end: start },
        }
    }
}
