// What the definitions say, in other words.

ghost use Rattle.std.specs.Prelude.{◌≡◌, ◌<◌, ◌^◌, ◌*◌, ℕ, ℤ, pos};
ghost use Rattle.byteorder.specs.Endian.{little_number, twos_complement};
ghost use Rattle.encoding.specs.declared.arguments.TheConstants.{ARGUMENT_BYTES};
ghost use Rattle.encoding.specs.Calls.{CallsAreWritten, LinesAreWritten, NumbersAreSpelled, SignedAreReadBack, SignedHaveBytes, UnsignedAreReadBack, UnsignedHaveBytes};
ghost use Rattle.encoding.specs.DecodeLaws.{ValuesAreEncoded, ValuesAreOfTheirBytes};
ghost use Rattle.encoding.specs.Laws.{IsSize, IsSignedOf};
ghost use Rattle.encoding.specs.Values.{number_bytes};

/// The limit that the definitions cite, as a number.
pub fn limits()
    ensures bytes_of_an_argument { ARGUMENT_BYTES ≡ 64 }
{}

/// The bytes of a number that so many bytes hold are read back as that number, the low byte first; one with a sign in two's complement.
pub fn numbers_are_read_back()
    ensures unsigned { (n x : ℕ) → x < 2 ^ (8 * n) → little_number n (number_bytes n (pos x)) ≡ x }
    ensures signed { (n : ℕ) (z : ℤ) → IsSize n → IsSignedOf n z → twos_complement n (little_number n (number_bytes n z)) ≡ z }
{}

/// Line N of the script is the call of line N of the text: of its name, with the bytes of its values one behind the other, and is read as
/// that call. An empty line and a comment stay as they are.
pub fn lines_are_calls()
    ensures lines { LinesAreWritten }
    ensures call { CallsAreWritten }
{}

/// A text says a number exactly where it is spelled so: decimal digits, or `0x` and hexadecimal digits, of a number below 2^64, and `-`
/// before either for the negative one.
pub fn numbers_are_spelled()
    ensures spelled { NumbersAreSpelled }
{}

/// The bytes of a value of each width, without a sign and with one, are read back as the number that its text says, and each number that
/// so many bytes hold has its bytes.
pub fn values_are_read_back()
    ensures unsigned { UnsignedAreReadBack }
    ensures signed { SignedAreReadBack }
    ensures each_unsigned { UnsignedHaveBytes }
    ensures each_signed { SignedHaveBytes }
{}

/// The values that `decode` writes of an entry spell the bytes of its key and its value, one behind the other; and `encode` makes these
/// bytes of them again, as far as an argument has room.
pub fn values_are_of_their_bytes()
    ensures spelled { ValuesAreOfTheirBytes }
    ensures encoded { ValuesAreEncoded }
{}
