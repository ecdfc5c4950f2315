//! Laws of what links carry. Each is a call that does nothing.

ghost use Rattle.dsde_sound_structures.specs.Carrying.{GatheredFit, MayTranslate, ReachCovers, SentFit, TranslatesExactly, WiringCarries};

use dsde_sound_names::given::sound_expressions::{
    expressions_agree, functions_agree, known_is_within,
};
use dsde_values::one_name;

/// A law: what is gathered over links that fit, from sources that fit, has the types of the ports
/// where it comes, a list for each.
pub fn gathered_fits()
    ensures { GatheredFit }
{
    one_name();
    expressions_agree();
    known_is_within();
    functions_agree();
}

/// A law: what a body sends by its out ports has their types, a list for each.
pub fn sent_fits()
    ensures { SentFit }
{}

/// A law: where there is a list for each port, of its type, values at ports have their types.
pub fn reach_covers()
    ensures { ReachCovers }
{}

/// A law: over links and sources that fit, each link carries from values of a type that it takes.
pub fn wiring_carries()
    ensures { WiringCarries }
{
    one_name();
}

/// A law: a value of the type that a translation takes may be translated.
pub fn may_translate()
    ensures { MayTranslate }
{}

/// A law: what comes of it is what the definition of the system makes of it.
pub fn translates_exactly()
    ensures { TranslatesExactly }
{}
