//! Laws over the definitions of texts.
ghost use Rattle.std.specs.Prelude.{◌≡◌, ◌↔◌, ℕ, IsTrue, List, MatchOption, Option, Some};
ghost use Rattle.sip_text.specs.Parameter.{AreParameters};
ghost use Rattle.sip_text.specs.Quoted.{IsQuoted, is_quoted};
ghost use Rattle.sip_text.specs.Separator as separators;
ghost use Rattle.sip_text.specs.declared.separator.Separator.{Separator};
ghost use Rattle.sip_text.specs.declared.separator.Place.TheVariants as place;

/// A text has one cut at most: the one that is found by reading it from left to right.
pub fn one_cut()
    ensures cut { (at : Separator) (text : List ℕ)
        → MatchOption (separators.cut_from at place.Plain text) (separators.IsWhole at text)
        (λ parts. separators.IsCut at parts text) }
    ensures only { (at : Separator) (text : List ℕ) (parts : List ℕ × List ℕ)
        → separators.IsCut at parts text → separators.cut_from at place.Plain text ≡ Some parts }
{}

/// A text can be split into its pieces in one way only.
pub fn one_split()
    ensures split { (at : Separator) (text : List ℕ)
        → separators.IsSplit at (separators.split_from at place.Plain text) text }
    ensures only { (at : Separator) (text : List ℕ) (pieces others : List (List ℕ))
        → separators.IsSplit at pieces text → separators.IsSplit at others text → pieces ≡ others }
{}

/// A text is at most one list of parameters.
pub fn one_list_of_parameters()
    ensures { (text : List ℕ) (ps qs : List (List ℕ × Option (List ℕ))) → AreParameters ps text
        → AreParameters qs text → ps ≡ qs }
{}

/// A quoted string is a quote, units and a quote. A unit is a byte other than a quote or a
/// backslash, or a backslash and any byte; neither has a CR or LF.
pub fn quoted_strings()
    ensures { (text : List ℕ) → IsTrue (is_quoted text) ↔ IsQuoted text }
{}
