//! Wirings and changes that lines tell.

ghost use Rattle.std.specs.Prelude.{◌≡◌, OnOk};
ghost use Rattle.dsde_routes_wiring.specs.Flatten.{flatten};

use crate::names::name_of;
use crate::routes::drawing::draw;
use crate::routes::parts::{add_names, handle_of, link, number, word};
use crate::routes::rows::{compare, show_all, turn};
use dsde_bank::Handle;
use dsde_base::Steps;
use dsde_lists::{Boxed, Memory};
use dsde_repair::{add_handles, fits_change, repair};
use dsde_routes::build;
use dsde_routes_table::RouteTable;
use dsde_routes_wiring::{Links, WiredKid, Wiring};
use dsde_structure::Link;
use dsde_values::{Name, Seq};
use rand_pcg::Lcg64Xsh32;
use std::alloc::Global;
use std::mem;
use std::sync::ledger::Ledger;

/// What lines have told so far: components, the later networks round the earlier ones; links of the
/// network that comes next; a place, the components that go there, and what comes there; a whole wiring
/// and its table, as it was built last, and the one before; the last birth; how many changes fitted, and
/// in how many rows their tables were wrong; and whether memory ran out, so that nothing of this counts.
#[derive(Drop)]
pub(crate) struct Script {
    kids: Vec<WiredKid>,
    links: Seq<Link>,
    place: Seq<Name>,
    gone: Seq<Name>,
    fresh: Told,
    wiring: Wiring,
    table: RouteTable,
    before: RouteTable,
    last: u64,
    fitting: u64,
    wrong: u64,
    pub(crate) lost: bool,
}

/// The components and the links that lines have told of a network.
#[derive(Drop)]
struct Told {
    kids: Seq<WiredKid>,
    links: Links,
}

/// A network without components and links.
fn empty(alloc: Global) -> Wiring {
    Wiring {
        me: handle_of(0),
        boss: handle_of(0),
        links: Links::new(alloc),
        kids: Seq::new(alloc),
    }
}

impl Script {
    pub(crate) fn new(alloc: Global) -> Script {
        Script {
            kids: Vec::new(alloc),
            links: Seq::new(alloc),
            place: Seq::new(alloc),
            gone: Seq::new(alloc),
            fresh: Told {
                kids: Seq::new(alloc),
                links: Links::new(alloc),
            },
            wiring: empty(alloc),
            table: RouteTable::new(alloc),
            before: RouteTable::new(alloc),
            last: 0,
            fitting: 0,
            wrong: 0,
            lost: false,
        }
    }

    /// Takes the lines of a file, and what is drawn behind them.
    pub(crate) fn take_file<L: Ledger>(
        &mut self,
        alloc: Global,
        file: &str,
        changes: &mut Steps<L>,
        lines: &mut String,
    ) {
        let (script, pattern) = file.split_once("\ndraw ").unwrap_or((file, ""));
        self.take_all(alloc, script, changes, lines);
        self.take_drawn(alloc, pattern, changes);
        let count = number(pattern, 0);
        let fitting = self.fitting;
        let wrong = self.wrong;
        self.tell(count, " drawn, ", lines);
        self.tell(fitting, " fitting, ", lines);
        self.tell(wrong, " rows wrong\n", lines);
    }

    /// Takes lines.
    fn take_all<L: Ledger>(
        &mut self,
        alloc: Global,
        script: &str,
        changes: &mut Steps<L>,
        lines: &mut String,
    ) {
        for line in script.lines() {
            self.take(alloc, line, changes, lines);
        }
    }

    /// `draw COUNT`, and behind it a pattern: half as many wirings, and two changes of each, which are
    /// counted anew.
    fn take_drawn<L: Ledger>(&mut self, alloc: Global, pattern: &str, changes: &mut Steps<L>) {
        self.last = 0;
        self.fitting = 0;
        self.wrong = 0;
        let mut dice = Lcg64Xsh32::new(1, 1);
        let mut told = String::new(alloc);
        for _ in 0..number(pattern, 0) / 2 {
            let mut script = String::new(alloc);
            self.lost |= !draw(&mut dice, pattern, &mut script);
            self.take_all(alloc, script.as_str(), changes, &mut told);
        }
    }

    /// Takes a line, or writes it as it stands, if it tells nothing.
    fn take<L: Ledger>(
        &mut self,
        alloc: Global,
        line: &str,
        changes: &mut Steps<L>,
        lines: &mut String,
    ) {
        let (order, words) = line.split_once(' ').unwrap_or((line, ""));
        match order {
            "leaf" => self.leaf(alloc, words),
            "link" => self.add_link(alloc, words),
            "network" => self.network(alloc, words),
            "at" => self.at(alloc, words),
            "gone" => self.go(alloc, words),
            "root" => self.root(alloc, changes),
            "change" => self.change(alloc, words, changes, lines),
            "rows" => self.rows(alloc, lines),
            "count" => self.count(alloc, changes, lines),
            "twice" => self.twice(alloc, words, changes, lines),
            _ => self.show(line, lines),
        }
    }

    /// Writes a number, and the words behind it.
    fn tell(&mut self, number: u64, words: &str, lines: &mut String) {
        self.lost |= write!(lines, "{number}{words}").is_err();
    }

    fn show(&mut self, line: &str, lines: &mut String) {
        self.lost |= writeln!(lines, "{line}").is_err();
    }

    /// The handle of a birth that is a word of a line.
    fn handle(&mut self, words: &str, index: usize) -> Handle {
        let birth = number(words, index);
        if birth > self.last {
            self.last = birth;
        }
        handle_of(birth)
    }

    /// `leaf NAME BIRTH`: an atomic component.
    fn leaf(&mut self, alloc: Global, words: &str) {
        let handle = self.handle(words, 1);
        self.add_kid(alloc, word(words, 0), handle, None);
    }

    /// `link FROM PORT TO PORT`, and the number of a translation, if there is one.
    fn add_link(&mut self, alloc: Global, words: &str) {
        match link(alloc, words) {
            Ok(own) => self.lost |= self.links.push(own).is_err(),
            Err(_) => self.lost = true,
        }
    }

    fn add_kid(&mut self, alloc: Global, word: &str, handle: Handle, below: Option<Boxed<Wiring>>) {
        match name_of(alloc, word) {
            Ok(name) => {
                let kid = WiredKid {
                    name,
                    handle,
                    below,
                };
                self.lost |= self.kids.push(kid).is_err();
            }
            Err(_) => {
                drop(below);
                self.lost = true;
            }
        }
    }

    /// So many of the last components, and the links that were told since this was last asked for.
    fn told(&mut self, alloc: Global, count: u64) -> Result<Told, Memory> {
        let links = Links::of(alloc, mem::replace(&mut self.links, Seq::new(alloc)))?;
        let first = self.kids.len().saturating_sub(count as usize);
        match self.kids.split_off(first) {
            Ok(kids) => Ok(Told {
                kids: Seq::from_vec(kids),
                links,
            }),
            Err(_) => {
                drop(links);
                Err(Memory)
            }
        }
    }

    /// `network NAME BIRTH BIRTH COUNT`: a network and its executive, round the last components.
    fn network(&mut self, alloc: Global, words: &str) {
        let me = self.handle(words, 1);
        let boss = self.handle(words, 2);
        match self.net(alloc, me, boss, number(words, 3)) {
            Ok(below) => self.add_kid(alloc, word(words, 0), me, Some(below)),
            Err(_) => self.lost = true,
        }
    }

    /// A network round the last components.
    fn net(
        &mut self,
        alloc: Global,
        me: Handle,
        boss: Handle,
        count: u64,
    ) -> Result<Boxed<Wiring>, Memory> {
        let Told { kids, links } = self.told(alloc, count)?;
        Boxed::new(
            alloc,
            Wiring {
                me,
                boss,
                links,
                kids,
            },
        )
    }

    /// `root`: the last network is the whole.
    fn root<L: Ledger>(&mut self, alloc: Global, changes: &mut Steps<L>) {
        if let Some(kid) = self.kids.pop() {
            let WiredKid { below, .. } = kid;
            if let Some(net) = below {
                drop(mem::replace(&mut self.wiring, net.into_inner()));
            }
        }
        self.lost |= self.build(alloc, changes).is_err();
    }

    /// Builds the table of the wiring, and keeps the one that was built last.
    fn build<L: Ledger>(&mut self, alloc: Global, changes: &mut Steps<L>) -> Result<(), Memory>
        ensures { OnOk result (self.new.table ≡ flatten self.new.wiring) }
    {
        let table = build(alloc, &self.wiring, changes)?;
        mem::swap(&mut self.before, &mut self.table);
        drop(mem::replace(&mut self.table, table));
        Ok(())
    }

    /// `at NAME..`: the network there is the next to change, and nothing of it goes yet.
    fn at(&mut self, alloc: Global, words: &str) {
        self.gone.truncate(0);
        self.place.truncate(0);
        self.lost |= !add_names(alloc, words, &mut self.place);
    }

    /// `gone NAME..`: the components of these names go.
    fn go(&mut self, alloc: Global, words: &str) {
        self.lost |= !add_names(alloc, words, &mut self.gone);
    }

    /// `change COUNT`: the network at the place loses what goes, gets the last components, and the links
    /// that were told.
    fn change<L: Ledger>(
        &mut self,
        alloc: Global,
        words: &str,
        changes: &mut Steps<L>,
        lines: &mut String,
    ) {
        match self.told(alloc, number(words, 0)) {
            Ok(fresh) => drop(mem::replace(&mut self.fresh, fresh)),
            Err(_) => self.lost = true,
        }
        match self.repaired(alloc, changes) {
            Ok(true) => self.compare(alloc, changes, lines),
            Ok(false) => self.show("does not fit", lines),
            Err(_) => self.lost = true,
        }
    }

    /// Builds the table anew, and makes the change that was told, if it fits; whether it does.
    fn repaired<L: Ledger>(
        &mut self,
        alloc: Global,
        changes: &mut Steps<L>,
    ) -> Result<bool, Memory> {
        self.build(alloc, changes)?;
        if !fits_change(
            alloc,
            &self.wiring,
            self.place.as_slice(),
            self.gone.as_slice(),
            self.fresh.kids.as_slice(),
            self.fresh.links.as_slice(),
        )? {
            return Ok(false);
        }
        let kids = mem::replace(&mut self.fresh.kids, Seq::new(alloc));
        let links = mem::replace(&mut self.fresh.links, Links::new(alloc));
        match repair(
            alloc,
            &mut self.table,
            &mut self.wiring,
            self.place.as_slice(),
            self.gone.as_slice(),
            kids,
            links,
            changes,
        ) {
            Ok(()) => Ok(true),
            Err(memory) => Err(memory),
        }
    }

    /// Tells how many rows went and came, and in how many the table that was repaired differs from one that
    /// is built anew.
    fn compare<L: Ledger>(&mut self, alloc: Global, changes: &mut Steps<L>, lines: &mut String) {
        let (fresh, gone) = compare(&self.table, &mut self.before, self.last, changes);
        self.lost |= self.build(alloc, changes).is_err();
        let (lacking, more) = compare(&self.table, &mut self.before, self.last, changes);
        let wrong = lacking.saturating_add(more);
        self.fitting = self.fitting.saturating_add(1);
        self.wrong = self.wrong.saturating_add(wrong);
        self.tell(gone, " rows gone, ", lines);
        self.tell(fresh, " new, ", lines);
        self.tell(wrong, " wrong\n", lines);
    }

    /// `rows`: a line for each.
    fn rows(&mut self, alloc: Global, lines: &mut String) {
        let mut sources = Seq::new(alloc);
        self.lost |= add_handles(&self.wiring, &mut sources).is_err();
        for source in sources.as_slice() {
            self.lost |= !show_all(lines, self.table.rows_from(*source, 0));
            self.lost |= !show_all(lines, self.table.rows_from(*source, 1));
        }
    }

    /// `count`: how many rows there are.
    fn count<L: Ledger>(&mut self, alloc: Global, changes: &mut Steps<L>, lines: &mut String) {
        let (count, _) = compare(&self.table, &mut RouteTable::new(alloc), self.last, changes);
        self.tell(count, " rows\n", lines);
    }

    /// `twice BIRTH`: the first row from port 0 of that source, taken out and put in, twice each.
    fn twice<L: Ledger>(
        &mut self,
        alloc: Global,
        words: &str,
        changes: &mut Steps<L>,
        lines: &mut String,
    ) {
        let source = handle_of(number(words, 0));
        self.lost |= self.build(alloc, changes).is_err();
        if let Some(row) = self.before.rows_from(source, 0).first() {
            let answer = turn(alloc, &mut self.table, row, changes);
            self.show(answer, lines);
        }
    }
}
