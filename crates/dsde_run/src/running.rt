//! A program that runs, with what its trace is written by.

ghost use Rattle.std.specs.Prelude.{◌≡◌, ◌++◌, OnOk, OnErr};
ghost use Rattle.dsde_values.specs.Value.{IsLawful};
ghost use Rattle.dsde_input_records.specs.Record.{ArePorts};
ghost use Rattle.dsde_language.specs.DeclaredModels.{top_ins, types_of};
ghost use Rattle.dsde_run_meaning.specs.Run.{spot_at};
ghost use Rattle.dsde_run.specs.Run.{running, event_text};
ghost use Rattle.dsde_run.specs.Steps.{ItemsCome};

use dsde_image_rows::given::sound_expressions::bodies_stand;
use dsde_image_rows::given::sound_structures::{
    ports_are_lawful, top_is_declared, types_are_lawful,
};
use dsde_lexer::Places;
use dsde_program_layout::infos_are_declared;
use dsde_sim_tree::Event;
use dsde_trace::given::program::Program;
use dsde_trace::write_event;
use dsde_values::{Field, Memory, Seq, Text, Types};
use std::marker::Model;

/// A program that runs, with the line and the column of each place of its model's text. Contracts see
/// the model and the places.
#[derive(Drop)]
pub struct Running<'p> {
    program: &'p Program<'p>,
    places: &'p Places,
    ins: &'p Seq<Field>,
}

impl<'p> Model for Running<'p> {
    ghost use Rattle.std.specs.Prelude.{◌≡◌};
    ghost use Rattle.std.specs.Coded.{codes};
    ghost use Rattle.dsde_syntax.specs.contracts.decl.Model as model;
    ghost use Rattle.dsde_run.specs.Run as own;
    ghost use Rattle.dsde_language.specs.Right.{IsRight};
    ghost use Rattle.dsde_language.specs.DeclaredModels.{top_ins};
    ghost use Rattle.dsde_input_records.specs.Record.{ArePorts};

    ghost Value = { own.Running };

    ghost coded = { Prim.hlevel (codes, model.the_row.coded) };

    ghost view = { λ running. own.running running.program.now running.places.now };

    ghost invariant = { λ running. IsRight running.program.now × (running.ins.now ≡ top_ins running.program.now) × ArePorts running.ins.now };
}

/// The in ports of the model that runs.
fn ins_of<'p>(program: &'p Program<'p>) -> &'p Seq<Field>
    ensures value { result.now ≡ top_ins program.now }
    ensures lawful { ArePorts result.now }
{
    // Laws: the model that runs is one of the program's, what is told of it is what its declaration
    // says, and its in ports are what an input may come to.
    top_is_declared();
    infos_are_declared();
    ports_are_lawful();
    program.right();
    &program.info(program.top_model()).ins
}

impl<'p> Running<'p> {
    /// The program, to be run, with the places of its model's text.
    pub fn new(program: &'p Program<'p>, places: &'p Places) -> Running<'p>
        ensures { result ≡ running program.now places.now }
    {
        program.right();
        Running {
            program,
            places,
            ins: ins_of(program),
        }
    }

    /// The program.
    pub fn program(&self) -> &'p Program<'p>
        ensures { result.now ≡ self.now.model }
    {
        self.program
    }

    /// The in ports of the model that runs.
    pub fn ins(&self) -> &'p Seq<Field>
        ensures value { result.now ≡ top_ins self.now.model }
        ensures lawful { ArePorts result.now }
    {
        self.ins
    }

    /// The types of the program.
    pub fn types(&self) -> &'p Types
        ensures value { result.now ≡ types_of self.now.model }
        ensures lawful { IsLawful result.now }
    {
        // A law: the types of a model in which nothing is wrong are lawful.
        types_are_lawful();
        self.program.types()
    }

    /// A law: what comes by the in ports of the input comes to the root.
    pub(crate) fn comes(&self)
        ensures { ItemsCome self.now }
    {
        bodies_stand();
        top_is_declared();
        let _ = &self.ins;
    }

    /// The line and the column of a place of the model's text, both counted from 1; both are 0 where
    /// it has no such place.
    pub fn spot(&self, at: u32) -> (u32, u32)
        ensures { result ≡ spot_at self.now.spots at }
    {
        self.places.find(at).unwrap_or((0, 0))
    }

    /// Appends the line of an event. Without memory the text stays as it was.
    pub fn write_event(&self, event: &Event, text: &mut Text) -> Result<(), Memory>
        ensures ok { OnOk result (text.new ≡ text.old ++ event_text self.now event.now) }
        ensures err { OnErr result (text.new ≡ text.old) }
    {
        write_event(event, self.program, text)
    }
}
