//! Quoted strings without their end.
ghost use Rattle.std.specs.Prelude.{◌≡◌, fold};
ghost use Rattle.sip_text.specs.OpenQuote as quotes;
ghost use Rattle.sip_text.specs.Separator as separators;
ghost use Rattle.sip_text.specs.declared.separator.Place.TheVariants as place;

use crate::find::find_byte;
use crate::separator::Place;

/// Whether the text ends within quotes (RFC 3261, section 25.1).
#[tactic(auto, unfolding(crate::specs::OpenQuote::has_open_quote))]
pub fn has_open_quote(text: &[u8]) -> bool
    ensures { result ≡ quotes.has_open_quote text.now }
{
    find_byte(b'"', text).is_some() && place_at_end(text).is_in_quotes()
}

fn place_at_end(text: &[u8]) -> Place
    ensures { result ≡ fold separators.after place.Plain text.now }
{
    text.iter()
        .fold(Place::Plain, |place, byte| place.after(*byte))
}

impl Place {
    fn is_in_quotes(self) -> bool
        ensures { result ≡ quotes.is_in_quotes self }
    {
        match self {
            Place::Quoted | Place::Escaped => true,
            Place::Plain | Place::Bracketed => false,
        }
    }
}
