//! What the definitions of gathering and of survival keep. Each law is a call that does nothing.

ghost use Rattle.std.specs.Prelude.{◌≡◌, ◌↔◌, ◌⊎◌, true, [], ◌++◌, List};
ghost use Rattle.std.specs.List.{Contains, list_any};
ghost use Rattle.dsde_values.specs.declared.name.Name.{Name};
ghost use Rattle.dsde_structure.specs.declared.plan.End.{End};
ghost use Rattle.dsde_structure.specs.declared.plan.Entry.{Entry};
ghost use Rattle.dsde_structure.specs.declared.plan.Link.{Link};
ghost use Rattle.dsde_structure.specs.declared.sources.Sources.{Sources};
ghost use Rattle.dsde_structure.specs.Gather.{Translation, gather};
ghost use Rattle.dsde_structure.specs.Survival.{compared, names, survives, StaysAs, IsInOrder, AreInOrder};

use dsde_values::one_name;
use dsde_values_equality::same_values_are_equal;

/// What comes to an end by some links and others behind them is what comes by the first ones, and
/// then what comes by the others: values come in the order of links, whatever their sources.
pub fn links_carry_in_order()
    ensures { (translate : Translation) (first later : List Link) (sources : Sources) (end : End) →
        gather translate (first ++ later) sources end ≡ gather translate first sources end ++ gather translate later sources end }
{}

/// Without links nothing comes to an end.
pub fn nothing_comes_without_links()
    ensures { (translate : Translation) (sources : Sources) (end : End) → gather translate [] sources end ≡ [] }
{}

/// One entry survives as another exactly where both have one name and one model, and the other is soft
/// or has equal arguments; and so it survives a change to a structure exactly where that has such an
/// entry.
pub fn survivors_keep_their_roles()
    ensures exact { (old new : Entry) → (survives old new ≡ true) ↔ StaysAs old new }
    ensures found { (old : Entry) (news : List Entry) → (list_any (survives old) news ≡ true) ↔ ((new : Entry) × Contains news new × StaysAs old new) }
{
    one_name();
    same_values_are_equal();
}

/// Each old name is gone or kept, and not both; each new entry is kept or fresh, and not both; no
/// other name comes up; and each of the three is in the order of names.
pub fn comparison_is_a_split()
    ensures old { (olds news : List Entry) (name : Name) → Contains (names olds) name ↔ (Contains (compared olds news).gone name ⊎ Contains (compared olds news).kept name) }
    ensures never_both { (olds news : List Entry) → IsInOrder olds → (name : Name) → Contains (compared olds news).gone name → Contains (compared olds news).kept name → ⊥ }
    ensures new { (olds news : List Entry) (name : Name) → Contains (names news) name ↔ (Contains (names (compared olds news).fresh) name ⊎ Contains (compared olds news).kept name) }
    ensures fresh { (olds news : List Entry) → IsInOrder news → (name : Name) → Contains (names (compared olds news).fresh) name → Contains (compared olds news).kept name → ⊥ }
    ensures order { (olds news : List Entry) → IsInOrder olds → IsInOrder news → AreInOrder (compared olds news).gone × AreInOrder (compared olds news).kept × IsInOrder (compared olds news).fresh }
{
    survivors_keep_their_roles();
}
