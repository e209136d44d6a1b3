// The kinds of values.

ghost use Rattle.std.specs.Prelude.{◌≡◌};
ghost use Rattle.encoding.specs.Faults.{kind_text};
ghost use Rattle.encoding.specs.Values.{kind_name, kind_named};

/// What a value is written as.
#[derive(Clone, Copy, PartialEq, Eq, Debug)]
pub enum Kind {
    /// A number of 8 bits without a sign.
    U8,
    /// Of 16 bits.
    U16,
    /// Of 32 bits.
    U32,
    /// Of 64 bits.
    U64,
    /// A number of 8 bits with a sign.
    S8,
    /// Of 16 bits.
    S16,
    /// Of 32 bits.
    S32,
    /// Of 64 bits.
    S64,
    /// A text between quotation marks.
    Str,
    /// Pairs of hexadecimal digits.
    Hex,
}

impl Kind {
    /// A value of this kind, in words.
    pub fn text(self) -> &'static str
        ensures text { result.now ≡ kind_text self }
    {
        match self {
            Kind::U8 => "a number from 0 to 255",
            Kind::U16 => "a number from 0 to 65535",
            Kind::U32 => "a number from 0 to 4294967295",
            Kind::U64 => "a number from 0 to 18446744073709551615",
            Kind::S8 => "a number from -128 to 127",
            Kind::S16 => "a number from -32768 to 32767",
            Kind::S32 => "a number from -2147483648 to 2147483647",
            Kind::S64 => "a number from -9223372036854775808 to 9223372036854775807",
            Kind::Str => "a text between quotation marks",
            Kind::Hex => "pairs of hexadecimal digits",
        }
    }

    // The name of this kind.
    pub(crate) fn name(self) -> &'static str
        ensures { result.now ≡ kind_name self }
    {
        match self {
            Kind::U8 => "u8",
            Kind::U16 => "u16",
            Kind::U32 => "u32",
            Kind::U64 => "u64",
            Kind::S8 => "s8",
            Kind::S16 => "s16",
            Kind::S32 => "s32",
            Kind::S64 => "s64",
            Kind::Str => "str",
            Kind::Hex => "hex",
        }
    }
}

// The kind of this name.
#[tactic(auto, unfolding(crate::specs::Values::kind_named))]
pub(crate) fn kind_named(name: &[u8]) -> Option<Kind>
    ensures { result ≡ kind_named name.now }
{
    if name == b"u8".as_slice() {
        Some(Kind::U8)
    } else if name == b"u16".as_slice() {
        Some(Kind::U16)
    } else if name == b"u32".as_slice() {
        Some(Kind::U32)
    } else if name == b"u64".as_slice() {
        Some(Kind::U64)
    } else if name == b"s8".as_slice() {
        Some(Kind::S8)
    } else if name == b"s16".as_slice() {
        Some(Kind::S16)
    } else if name == b"s32".as_slice() {
        Some(Kind::S32)
    } else if name == b"s64".as_slice() {
        Some(Kind::S64)
    } else if name == b"str".as_slice() {
        Some(Kind::Str)
    } else if name == b"hex".as_slice() {
        Some(Kind::Hex)
    } else {
        None
    }
}
