//! Runs of bytes of one class.
ghost use Rattle.std.specs.Prelude.{◌≡◌, ◌≤◌, length};
ghost use Rattle.std.specs.List.{list_all, prefix_len};
ghost use Rattle.sip_text.specs.Cut.{both_now};
ghost use Rattle.sip_text.specs.Run.{run_before};
ghost use Rattle.sip_text.specs.Token as token;

/// A class of bytes.
pub trait ByteClass {
    ghost use Rattle.std.specs.Prelude.{ℕ, Bool};

    // Whether a byte belongs to the class.
    ghost holds: { ℕ → Bool };

    /// Whether the byte belongs to the class.
    fn test(byte: u8) -> bool
        ensures { result ≡ holds byte };
}

/// Whether each byte of the text belongs to the class.
pub fn each_is<C: ByteClass>(text: &[u8]) -> bool
    ensures { result ≡ list_all C.holds text.now }
{
    run_len::<C>(text) == text.len()
}

/// Whether the text is one or more bytes of the class.
pub fn is_run<C: ByteClass>(text: &[u8]) -> bool
    ensures { result ≡ token.is_run C.holds text.now }
{
    match text {
        [] => false,
        [_, ..] => each_is::<C>(text),
    }
}

/// How many bytes of the class the text begins with.
pub fn run_len<C: ByteClass>(text: &[u8]) -> usize
    ensures run { result ≡ prefix_len C.holds text.now }
    ensures within { result ≤ length text.now }
{
    let mut index = 0;
    // Four tests in each turn, for fewer tests of the loop itself.
    while 4 <= text.len() - index {
        if !C::test(text[index]) {
            return index;
        }
        if !C::test(text[index + 1]) {
            return index + 1;
        }
        if !C::test(text[index + 2]) {
            return index + 2;
        }
        if !C::test(text[index + 3]) {
            return index + 3;
        }
        index += 4;
    }
    while index < text.len() && C::test(text[index]) {
        index += 1;
    }
    index
}

/// The bytes of the class that the text begins with, at least one, if this byte follows them; and
/// what stands behind that byte.
#[tactic(auto, unfolding(crate::specs::Run::run_before))]
pub fn run_before<C: ByteClass>(end: u8, text: &[u8]) -> Option<(&[u8], &[u8])>
    ensures { both_now result ≡ run_before C.holds end text.now }
{
    let (run, rest) = text.split_at(run_len::<C>(text));
    match (run, rest) {
        ([_, ..], [byte, after @ ..]) if *byte == end => Some((run, after)),
        _ => None,
    }
}
