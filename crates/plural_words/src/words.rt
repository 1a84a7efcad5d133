//! The words of a machine.
ghost use Rattle.std.specs.Prelude.{◌≡◌};

use crate::closed::Closed;
use crate::key::Key;
use crate::law::{All, Joining, Law, Naming, Parting};
use crate::opening::opening_words;
use crate::place::{Place, places_of};
use crate::seat::{Root, Seat};
use atomic_table::Table;
use plural_base::Memory;
use plural_crew::Accepted;
use plural_rule::View;
use plural_serial::Program;
use std::alloc::Global;
use std::marker::{Brand, Model};
use std::snapshot::Snapshot;

/// All words that the cores of a machine share, in one table. Contracts see which table it is, and what it was opened
/// with: the program, the image and the number of cores.
#[derive(Drop)]
pub struct Words {
    pub(crate) table: Table<(), View, Key, Law, Global>,
    // Of each task its places; and the first of the counters, after which the clock comes last.
    pub(crate) places: Vec<Place>,
    pub(crate) counters: usize,
    pub(crate) memory: u32,
    pub(crate) cores: u32,
}

impl Model for Words {
    ghost use Rattle.plural_words.specs.Seen.{WordsSeen};
    ghost use Rattle.plural_words.specs.Places.{IsLaidOut};

    ghost Value = { WordsSeen };

    ghost view = { λ w. record { table = w.table.shared.table_id; opening = w.table.shared.key } };

    ghost invariant = { λ w. IsLaidOut w.table.shared.key w.table.shared.table_id w.places.items w.counters w.memory
        w.cores };
}

impl Words {
    ghost use Rattle.std.specs.Prelude.{◌<◌, ◌≤◌, [], length, IfOk};
    ghost use Rattle.plural_order.specs.Sums.{times};
    ghost use Rattle.plural_rule.specs.Stages.{outs_of};
    ghost use Rattle.plural_rule.specs.Steps.{first_view, root_after, new_seat, joined};
    ghost use Rattle.plural_rule.specs.declared.view.Stage.TheVariants.{Free};
    ghost use Rattle.plural_words.specs.Seen.{opening_of, IsSeatOf, IsRootOf, root_with};
    ghost use Rattle.plural_words.specs.Closing.{HasToldIfAlone, IsClosed};

    /// Opens the words of a program whose map was accepted, over an image, for this many cores. No seat is out, the
    /// tasks without dependencies and no others are armed, and the memory is the image.
    pub fn open(
        alloc: Global,
        program: &Program,
        accepted: &Accepted,
        image: &[u32],
        cores: u32,
    ) -> Result<(Words, Root), Memory>
        requires map { accepted.now ≡ program.now.map }
        requires image { length image.now ≡ program.now.map.words }
        requires cores { (1 ≤ cores) × (cores ≤ 64) }
        ensures opening { IfOk result (λ r. r.0.opening ≡ opening_of program.now image.now cores) }
        ensures of { IfOk result (λ r. IsRootOf r.0 r.1) }
        ensures root { IfOk result (λ r. r.1.view ≡ first_view r.0.opening) }
    {
        let _map = accepted.map();
        let memory = program.map().words();
        let (places, counters) = places_of(alloc, program)?;
        let words = opening_words(alloc, program, image, counters - memory as usize)?;
        let key = Key::of(program, &words, &cores);
        let (table, token) = Table::of_words(alloc, words.as_slice(), &key)?;
        Ok((
            Words {
                table,
                places,
                counters,
                memory,
                cores,
            },
            Root { token },
        ))
    }

    /// Sends out a seat with this core number, which is free and has found what the root has found. One load.
    pub fn split(&self, root: &mut Root, core: u32) -> Seat
        requires of { IsRootOf self.now root.old }
        requires away { times core (outs_of root.old.view.role) ≡ 0 }
        requires low { core < self.now.opening.cores }
        ensures of { IsRootOf self.now root.new × IsSeatOf self.now result }
        ensures root { root.new ≡ root_with root.old (root_after root.old.view core) }
        ensures seat { result ≡ record { table = root.old.table; core = core; view = new_seat root.old.view core } }
    {
        self.split_as::<Brand>(root, core)
    }

    // The same, with the core number named at the call.
    fn split_as<N: Naming>(&self, root: &mut Root, core: u32) -> Seat
        requires name { core ≡ N.core }
        requires of { IsRootOf self.now root.old }
        requires away { times N.core (outs_of root.old.view.role) ≡ 0 }
        requires low { N.core < self.now.opening.cores }
        ensures of { IsRootOf self.now root.new × IsSeatOf self.now result }
        ensures root { root.new ≡ root_with root.old (root_after root.old.view N.core) }
        ensures seat { result ≡ record { table = root.old.table; core = core; view = new_seat root.old.view N.core } }
    {
        let token = self.table.shared.split_seat::<Parting<N>>(&mut root.token);
        Seat {
            token,
            core,
            record_place: 0,
            last: 0,
        }
    }

    /// Takes back a seat that holds no instance and owes nothing: the root knows what it knew. If then no seat is out,
    /// and the root knows each task that it knows as armed as wholly handed out, every task was told. Two loads.
    pub fn join(&self, root: &mut Root, seat: Seat)
        requires of { IsRootOf self.now root.old × IsSeatOf self.now seat }
        requires free { seat.view.stage ≡ Free }
        requires nothing { seat.view.owes ≡ [] }
        ensures of { IsRootOf self.now root.new }
        ensures root { root.new ≡ root_with root.old (joined root.old.view seat.view) }
        ensures told { HasToldIfAlone self.now.opening root.new.view }
    {
        let Seat { token, .. } = seat;
        self.table
            .shared
            .join_seat::<Joining>(&mut root.token, token);
        self.table
            .shared
            .load::<All>(&mut root.token, self.counters);
    }

    /// The words after the last step, once no seat is out. If the root has told every task, the memory is that of the
    /// serial run, and exactly the instances of the serial run are done, each with its record.
    pub fn close(self, root: Root) -> Closed
        requires of { IsRootOf self root }
        requires alone { outs_of root.view.role ≡ [] }
        ensures opening { result.opening ≡ self.opening }
        ensures root { result.root ≡ root.view }
        ensures closed { IsClosed result }
    {
        let Words {
            table,
            places,
            counters,
            memory: _,
            cores,
        } = self;
        let Root { token } = root;
        let seen = Snapshot::of(&token);
        let opened = Snapshot::of(&table);
        let inner = table.close_with(token);
        Closed {
            inner,
            places,
            counters,
            cores,
            table: opened,
            root: seen,
        }
    }

    /// How many cores the words were opened for.
    pub fn cores(&self) -> u32
        ensures { result ≡ self.now.opening.cores }
    {
        self.cores
    }
}
