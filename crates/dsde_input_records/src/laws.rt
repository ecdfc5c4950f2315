//! What the definitions of records keep.

ghost use Rattle.std.specs.Prelude.{◌≡◌, ◌↔◌, ◌++◌, false, max, unwrap_or, List, ℕ, Option, Some};
ghost use Rattle.dsde_values.specs.declared.arrival.Arrival.{Arrival};
ghost use Rattle.dsde_values.specs.declared.types.Field.{Field};
ghost use Rattle.dsde_values.specs.declared.types.Ty.{Ty};
ghost use Rattle.dsde_values.specs.declared.types.Types.{Types};
ghost use Rattle.dsde_values.specs.declared.value.Value.{Value};
ghost use Rattle.dsde_values.specs.Value.{HasType, IsLawful, spelling};
ghost use Rattle.dsde_values.specs.Word.{goes_on};
ghost use Rattle.dsde_input_records.specs.Reading.{value_of};
ghost use Rattle.dsde_input_records.specs.Record.{ArePorts, Spells, record_of};
ghost use Rattle.dsde_input_records.specs.Records.{ComeFrom, records_of};

/// In a lawful table the value that is read from the front of bytes is the one whose spelling stands
/// there, with no word that goes on from it. A law: the call does nothing.
pub fn value_is_spelled()
    ensures { (types : Types) → IsLawful types → (ty : Ty) (bytes : List ℕ) (value : Value) (rest : List ℕ) → (value_of types ty bytes ≡ Some (value, rest)) ↔ (HasType types value ty × (bytes ≡ spelling types value ++ rest) × (goes_on (spelling types value) rest ≡ false)) }
{}

/// Under a lawful table and ports whose names are identifiers and differ, the record that is read
/// from a line is the one whose text the line is. A law: the call does nothing.
pub fn record_is_spelled()
    ensures { (ports : List Field) (types : Types) → ArePorts ports → IsLawful types → (number : ℕ) (line : List ℕ) (arrival : Arrival) → (record_of ports types number line ≡ Some arrival) ↔ Spells ports types number line arrival }
{}

/// Each record of an input is not before the one before it, and none before the floor. A law: the call
/// does nothing.
pub fn records_come_in_order()
    ensures { (ports : List Field) (types : Types) (floor : ℕ) (lines : List (List ℕ)) (number : ℕ) (last : Option ℕ) → ComeFrom (max (unwrap_or last 0) floor) (records_of ports types floor lines number last) }
{}
