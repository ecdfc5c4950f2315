//! The planner of tables.

ghost use Rattle.std.specs.Prelude.{◌≡◌, ◌≢◌, [], false, Some, Ok, Err, IfOk, map};
ghost use Rattle.dsde_language.specs.Outcome.{Stuck, Gives};
ghost use Rattle.dsde_language.specs.MeaningTables.{values_from, holds_at};
ghost use Rattle.dsde_executive_plans.specs.Layout.{natural};
ghost use Rattle.dsde_executive_plans.specs.Drafts.{index_at, part_at, end_at, key_at, via_at, comp_draw, link_draw, draw, draw_arm, draws, arms_draw, braced, for_one, for_draw, for_list, draft_of, planned, Draws, Takes};
ghost use Rattle.dsde_executive_planner.specs.Drawing.{part_in};

use crate::drawn::Drawn;
use dsde_eval_tables::Evaluator;
use dsde_eval_tables::given::eval_operators::{int_of, items_of, truth_of};
use dsde_executive_plans::given::structure::{End, Entry, Link, Part, Plan, Via};
use dsde_faults::{EvalEnd, FaultKind};
use dsde_language::{ExprId, Make, MakeArm, MakeEnd, MakeIndex, MakePart, MakeVia, ModelId};
use dsde_lists::Memory;
use dsde_values::{Name, Seq, Stem, Text, Value};
use std::alloc::Global;

/// Does what the items of a structure do in the tables of a model, over slots, where expressions are
/// evaluated to a depth. What it is asked for must not be stuck: it looks at no types.
#[derive(Drop)]
pub struct Planner<'p> {
    pub evaluator: Evaluator<'p>,
    pub depth: u32,
}

/// A name with these parts.
fn named(alloc: Global, stem: &Text, index: Option<u64>) -> Result<Name, Memory>
    ensures { IfOk result (λ name. name ≡ record { stem = stem.now; index = index }) }
{
    Ok(Name {
        stem: Stem::from_slice(alloc, stem.as_slice())?,
        index,
    })
}

/// An index; the fault `BadIndex` where it is negative.
fn natural(at: u32, number: i64) -> Result<Option<u64>, EvalEnd>
    ensures { Gives (natural at number) result }
{
    match u64::try_from(number) {
        Ok(number) => Ok(Some(number)),
        Err(_) => Err(EvalEnd::Fault(FaultKind::BadIndex, at)),
    }
}

impl Planner<'_> {
    /// The plan that the items of a structure give over slots, where that is a plan or a fault: its
    /// components in the order of their names and its links in the order in which they came, or the
    /// first fault with its place. `Memory` where memory runs out.
    pub fn plan(&self, makes: &[Make], slots: Seq<Value>) -> Result<Plan, EvalEnd>
        requires { planned (part_in self.now) makes.now slots ≢ Err Stuck }
        ensures { Gives (planned (part_in self.now) makes.now slots) result }
    {
        let mut slots = slots;
        let mut drawn = Drawn::new(self.evaluator.alloc);
        self.makes(makes, &mut slots, &mut drawn)?;
        drawn.plan(self.evaluator.alloc)
    }

    fn eval(&self, number: ExprId, slots: &mut Seq<Value>) -> Result<Value, EvalEnd>
        requires { part_in self.now number slots.old ≢ Err Stuck }
        ensures gives { Gives (part_in self.now number slots.old) result }
        ensures keeps { slots.new ≡ slots.old }
    {
        self.evaluator.eval(self.depth, number, slots)
    }

    /// What some expressions come to, in their order.
    fn values(&self, numbers: &[ExprId], slots: &mut Seq<Value>) -> Result<Seq<Value>, EvalEnd>
        requires { values_from (part_in self.now) [] numbers.now slots.old ≢ Err Stuck }
        ensures gives { Gives (values_from (part_in self.now) [] numbers.now slots.old) result }
        ensures keeps { slots.new ≡ slots.old }
    {
        let mut done = Seq::new(self.evaluator.alloc);
        for number in numbers {
            done.push(self.eval(*number, slots)?)?;
        }
        Ok(done)
    }

    /// An index, if there is one.
    fn index(
        &self,
        index: Option<MakeIndex>,
        slots: &mut Seq<Value>,
    ) -> Result<Option<u64>, EvalEnd>
        requires { index_at (part_in self.now) index slots.old ≢ Err Stuck }
        ensures gives { Gives (index_at (part_in self.now) index slots.old) result }
        ensures keeps { slots.new ≡ slots.old }
    {
        match index {
            Some(own) => {
                let value = self.eval(own.value, slots)?;
                natural(own.at, int_of(&value))
            }
            None => Ok(None),
        }
    }

    /// Whose port an end of a link is.
    fn part(&self, part: &MakePart, slots: &mut Seq<Value>) -> Result<Part, EvalEnd>
        requires { part_at (part_in self.now) part.now slots.old ≢ Err Stuck }
        ensures gives { Gives (part_at (part_in self.now) part.now slots.old) result }
        ensures keeps { slots.new ≡ slots.old }
    {
        match part {
            MakePart::Net => Ok(Part::Net),
            MakePart::Boss => Ok(Part::Boss),
            MakePart::Kid { stem, index } => {
                let index = self.index(*index, slots)?;
                Ok(Part::Kid(named(self.evaluator.alloc, stem, index)?))
            }
        }
    }

    /// An end of a link.
    fn end(&self, end: &MakeEnd, slots: &mut Seq<Value>) -> Result<End, EvalEnd>
        requires { end_at (part_in self.now) end.now slots.old ≢ Err Stuck }
        ensures gives { Gives (end_at (part_in self.now) end.now slots.old) result }
        ensures keeps { slots.new ≡ slots.old }
    {
        let part = self.part(&end.part, slots)?;
        Ok(End {
            part,
            port: end.port,
        })
    }

    /// The key of a translation, if it has one.
    fn key(&self, key: Option<ExprId>, slots: &mut Seq<Value>) -> Result<Option<Value>, EvalEnd>
        requires { key_at (part_in self.now) key slots.old ≢ Err Stuck }
        ensures gives { Gives (key_at (part_in self.now) key slots.old) result }
        ensures keeps { slots.new ≡ slots.old }
    {
        match key {
            Some(key) => Ok(Some(self.eval(key, slots)?)),
            None => Ok(None),
        }
    }

    /// The translation of a link, if it has one.
    fn via(&self, via: Option<MakeVia>, slots: &mut Seq<Value>) -> Result<Option<Via>, EvalEnd>
        requires { via_at (part_in self.now) via slots.old ≢ Err Stuck }
        ensures gives { Gives (via_at (part_in self.now) via slots.old) result }
        ensures keeps { slots.new ≡ slots.old }
    {
        match via {
            Some(via) => {
                let key = self.key(via.key, slots)?;
                Ok(Some(Via { id: via.id, key }))
            }
            None => Ok(None),
        }
    }

    /// Puts in a component.
    fn comp(
        &self,
        at: u32,
        stem: &Text,
        index: Option<MakeIndex>,
        model: ModelId,
        args: &Seq<ExprId>,
        soft: bool,
        slots: &mut Seq<Value>,
        drawn: &mut Drawn,
    ) -> Result<(), EvalEnd>
        requires { comp_draw (part_in self.now) at stem.now index model args.now soft (draft_of slots.old drawn.old.entries drawn.old.links) ≢ Err Stuck }
        ensures { Draws (comp_draw (part_in self.now) at stem.now index model args.now soft (draft_of slots.old drawn.old.entries drawn.old.links)) result slots.new drawn.new.entries drawn.new.links }
    {
        let index = self.index(index, slots)?;
        let args = self.values(args.as_slice(), slots)?;
        let name = named(self.evaluator.alloc, stem, index)?;
        let entry = Entry {
            name,
            model,
            args,
            soft,
        };
        drawn.put(at, entry)
    }

    /// Lays a link.
    fn link(
        &self,
        at: u32,
        from: &MakeEnd,
        to: &MakeEnd,
        via: Option<MakeVia>,
        slots: &mut Seq<Value>,
        drawn: &mut Drawn,
    ) -> Result<(), EvalEnd>
        requires { link_draw (part_in self.now) at from.now to.now via (draft_of slots.old drawn.old.entries drawn.old.links) ≢ Err Stuck }
        ensures { Draws (link_draw (part_in self.now) at from.now to.now via (draft_of slots.old drawn.old.entries drawn.old.links)) result slots.new drawn.new.entries drawn.new.links }
    {
        let from = self.end(from, slots)?;
        let to = self.end(to, slots)?;
        let via = self.via(via, slots)?;
        drawn.lay(at, Link { from, to, via })
    }

    /// Whether a condition holds.
    fn test(&self, cond: ExprId, slots: &mut Seq<Value>) -> Result<bool, EvalEnd>
        requires { holds_at (part_in self.now) (Some cond) slots.old ≢ Err Stuck }
        ensures gives { Gives (holds_at (part_in self.now) (Some cond) slots.old) result }
        ensures keeps { slots.new ≡ slots.old }
    {
        let test = self.eval(cond, slots)?;
        Ok(truth_of(&test))
    }

    /// Does items in their order.
    #[cycle(drawing)]
    fn makes(
        &self,
        makes: &[Make],
        slots: &mut Seq<Value>,
        drawn: &mut Drawn,
    ) -> Result<(), EvalEnd>
        requires { draws (part_in self.now) makes.now (draft_of slots.old drawn.old.entries drawn.old.links) ≢ Err Stuck }
        ensures { Draws (draws (part_in self.now) makes.now (draft_of slots.old drawn.old.entries drawn.old.links)) result slots.new drawn.new.entries drawn.new.links }
    {
        for make in makes {
            self.make(make, slots, drawn)?;
        }
        Ok(())
    }

    /// Does one item.
    #[cycle(drawing)]
    fn make(&self, make: &Make, slots: &mut Seq<Value>, drawn: &mut Drawn) -> Result<(), EvalEnd>
        requires { draw (part_in self.now) make.now (draft_of slots.old drawn.old.entries drawn.old.links) ≢ Err Stuck }
        ensures { Draws (draw (part_in self.now) make.now (draft_of slots.old drawn.old.entries drawn.old.links)) result slots.new drawn.new.entries drawn.new.links }
    {
        match make {
            Make::Comp {
                at,
                stem,
                index,
                model,
                args,
                soft,
            } => self.comp(*at, stem, *index, *model, args, *soft, slots, drawn),
            Make::Link { at, from, to, via } => self.link(*at, from, to, *via, slots, drawn),
            Make::Let(number) => {
                let value = self.eval(*number, slots)?;
                slots.push(value)?;
                Ok(())
            }
            Make::If(arms, last) => {
                if self.arms(arms.as_slice(), slots, drawn)? {
                    return Ok(());
                }
                match last {
                    Some(makes) => self.braced(makes.as_slice(), slots, drawn),
                    None => Ok(()),
                }
            }
            Make::For(list, body) => self.for_list(*list, body.as_slice(), slots, drawn),
        }
    }

    /// Does the items behind the first condition that holds, and says whether one did.
    #[cycle(drawing)]
    fn arms(
        &self,
        arms: &[MakeArm],
        slots: &mut Seq<Value>,
        drawn: &mut Drawn,
    ) -> Result<bool, EvalEnd>
        requires { arms_draw (part_in self.now) (map (draw_arm (part_in self.now)) arms.now) (draft_of slots.old drawn.old.entries drawn.old.links) ≢ Err Stuck }
        ensures takes { Takes (arms_draw (part_in self.now) (map (draw_arm (part_in self.now)) arms.now) (draft_of slots.old drawn.old.entries drawn.old.links)) result slots.new drawn.new.entries drawn.new.links }
        ensures none { result ≡ Ok false → (slots.new ≡ slots.old) × (drawn.new ≡ drawn.old) }
    {
        for arm in arms {
            if self.test(arm.cond, slots)? {
                self.braced(arm.makes.as_slice(), slots, drawn)?;
                return Ok(true);
            }
        }
        Ok(false)
    }

    /// Does items, and takes back the slots that they added.
    #[cycle(drawing)]
    fn braced(
        &self,
        makes: &[Make],
        slots: &mut Seq<Value>,
        drawn: &mut Drawn,
    ) -> Result<(), EvalEnd>
        requires { braced (draws (part_in self.now) makes.now) (draft_of slots.old drawn.old.entries drawn.old.links) ≢ Err Stuck }
        ensures { Draws (braced (draws (part_in self.now) makes.now) (draft_of slots.old drawn.old.entries drawn.old.links)) result slots.new drawn.new.entries drawn.new.links }
    {
        let size = slots.len();
        self.makes(makes, slots, drawn)?;
        slots.truncate(size);
        Ok(())
    }

    /// Does items over one more slot, which is taken back.
    #[cycle(drawing)]
    fn once(
        &self,
        makes: &[Make],
        item: Value,
        slots: &mut Seq<Value>,
        drawn: &mut Drawn,
    ) -> Result<(), EvalEnd>
        requires { for_one (draws (part_in self.now) makes.now) item (draft_of slots.old drawn.old.entries drawn.old.links) ≢ Err Stuck }
        ensures { Draws (for_one (draws (part_in self.now) makes.now) item (draft_of slots.old drawn.old.entries drawn.old.links)) result slots.new drawn.new.entries drawn.new.links }
    {
        let size = slots.len();
        slots.push(item)?;
        self.makes(makes, slots, drawn)?;
        slots.truncate(size);
        Ok(())
    }

    /// Does items for each item of what an expression comes to.
    #[cycle(drawing)]
    fn for_list(
        &self,
        list: ExprId,
        makes: &[Make],
        slots: &mut Seq<Value>,
        drawn: &mut Drawn,
    ) -> Result<(), EvalEnd>
        requires { for_list (part_in self.now) list (draws (part_in self.now) makes.now) (draft_of slots.old drawn.old.entries drawn.old.links) ≢ Err Stuck }
        ensures { Draws (for_list (part_in self.now) list (draws (part_in self.now) makes.now) (draft_of slots.old drawn.old.entries drawn.old.links)) result slots.new drawn.new.entries drawn.new.links }
    {
        let own = self.eval(list, slots)?;
        self.for_each(makes, items_of(own), slots, drawn)
    }

    /// Does items for each item of a list in order.
    #[cycle(drawing)]
    fn for_each(
        &self,
        makes: &[Make],
        items: Seq<Value>,
        slots: &mut Seq<Value>,
        drawn: &mut Drawn,
    ) -> Result<(), EvalEnd>
        requires { for_draw (draws (part_in self.now) makes.now) items (draft_of slots.old drawn.old.entries drawn.old.links) ≢ Err Stuck }
        ensures { Draws (for_draw (draws (part_in self.now) makes.now) items (draft_of slots.old drawn.old.entries drawn.old.links)) result slots.new drawn.new.entries drawn.new.links }
    {
        for item in items.into_vec() {
            self.once(makes, item, slots, drawn)?;
        }
        Ok(())
    }
}
