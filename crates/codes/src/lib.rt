// What the layout's words, the value list's and the calls' answers number: kinds of fields, tags of items, refusals; and what is absent.

#![tactic(auto)]

ghost use Rattle.std.specs.Prelude.{◌≡◌, ◌==◌};
ghost use Rattle.codes.specs.Kinds.{word_of_kind, kind_in, word_of_tag, tag_in};
ghost use Rattle.codes.specs.Refusals.{number_of, number_in};

// The kind of a field.
#[derive(Clone, Copy, Debug, PartialEq, Eq)]
pub enum Kind {
    Text,
    Int,
    Binary,
    Float,
    Hex,
    Bool,
    Pad,
    Decimal,
    Edited,
    Group,
}

impl From<Kind> for u32 {
    ghost from_gives = { λ kind word. word ≡ word_of_kind kind };

    fn from(kind: Kind) -> u32 {
        match kind {
            Kind::Text => 0,
            Kind::Int => 1,
            Kind::Binary => 2,
            Kind::Float => 3,
            Kind::Hex => 4,
            Kind::Bool => 5,
            Kind::Pad => 6,
            Kind::Decimal => 7,
            Kind::Edited => 8,
            Kind::Group => 9,
        }
    }
}

impl TryFrom<u32> for Kind {
    type Error = Refusal;

    ghost try_from_gives = { λ word kind. kind ≡ kind_in word };

    fn try_from(word: u32) -> Result<Kind, Refusal> {
        match word {
            0 => Ok(Kind::Text),
            1 => Ok(Kind::Int),
            2 => Ok(Kind::Binary),
            3 => Ok(Kind::Float),
            4 => Ok(Kind::Hex),
            5 => Ok(Kind::Bool),
            6 => Ok(Kind::Pad),
            7 => Ok(Kind::Decimal),
            8 => Ok(Kind::Edited),
            9 => Ok(Kind::Group),
            _ => Err(Refusal::EntryWords),
        }
    }
}

impl Kind {
    // Whether a word is this kind's.
    pub fn is(self, word: u32) -> bool
        ensures { result ≡ (word == word_of_kind self) }
    {
        word == u32::from(self)
    }
}

// The tag of an item: scalars, then what has members.
#[derive(Clone, Copy, Debug, PartialEq, Eq)]
pub enum Tag {
    Null,
    Text,
    Int,
    Decimal,
    Float,
    Bool,
    List,
    Struct,
}

impl From<Tag> for u64 {
    ghost from_gives = { λ tag word. word ≡ word_of_tag tag };

    fn from(tag: Tag) -> u64 {
        match tag {
            Tag::Null => 0,
            Tag::Text => 1,
            Tag::Int => 2,
            Tag::Decimal => 3,
            Tag::Float => 4,
            Tag::Bool => 5,
            Tag::List => 6,
            Tag::Struct => 7,
        }
    }
}

impl TryFrom<u64> for Tag {
    type Error = Refusal;

    ghost try_from_gives = { λ word tag. tag ≡ tag_in word };

    fn try_from(word: u64) -> Result<Tag, Refusal> {
        match word {
            0 => Ok(Tag::Null),
            1 => Ok(Tag::Text),
            2 => Ok(Tag::Int),
            3 => Ok(Tag::Decimal),
            4 => Ok(Tag::Float),
            5 => Ok(Tag::Bool),
            6 => Ok(Tag::List),
            7 => Ok(Tag::Struct),
            _ => Err(Refusal::IllFormedList),
        }
    }
}

impl Tag {
    // Whether a word is this tag's.
    pub fn is(self, word: u64) -> bool
        ensures { result ≡ (word == word_of_tag self) }
    {
        word == u64::from(self)
    }
}

// The question that refuses a call.
#[derive(Clone, Copy, Debug, PartialEq, Eq)]
pub enum Refusal {
    LayoutWords,
    EntryWords,
    Nesting,
    RecordLength,
    NoController,
    CountRange,
    OutsideRecord,
    UnlawfulBytes,
    OutOfRange,
    EmptyElement,
    IllFormedList,
    MissingName,
    WrongKind,
    Misfit,
    Mask,
    NoRoom,
    LayoutText,
    PairOrDisplay,
    LargeValue,
    NotKept,
    WindowWords,
}

impl From<Refusal> for u32 {
    ghost from_gives = { λ refusal number. number ≡ number_of refusal };

    fn from(refusal: Refusal) -> u32 {
        match refusal {
            Refusal::LayoutWords => 1,
            Refusal::EntryWords => 2,
            Refusal::Nesting => 3,
            Refusal::RecordLength => 4,
            Refusal::NoController => 5,
            Refusal::CountRange => 6,
            Refusal::OutsideRecord => 7,
            Refusal::UnlawfulBytes => 8,
            Refusal::OutOfRange => 9,
            Refusal::EmptyElement => 10,
            Refusal::IllFormedList => 11,
            Refusal::MissingName => 12,
            Refusal::WrongKind => 13,
            Refusal::Misfit => 14,
            Refusal::Mask => 15,
            Refusal::NoRoom => 16,
            Refusal::LayoutText => 17,
            Refusal::PairOrDisplay => 18,
            Refusal::LargeValue => 19,
            Refusal::NotKept => 20,
            Refusal::WindowWords => 24,
        }
    }
}

// The number that a call answers for a result: 0 where nothing refuses.
pub fn number_in<T: Drop>(result_of: Result<T, Refusal>) -> u32
    ensures { result ≡ number_in result_of }
{
    match result_of {
        Ok(_) => 0,
        Err(refusal) => refusal.into(),
    }
}

// occurs and depending where they are absent.
pub const ABSENT: u32 = 4294967295;

// The name of an element of a List.
pub const ELEMENT: u64 = 65536;

// The bytes that a record may have.
pub const MAX_RECORD: usize = 65536;
