//! Names that have no rows of their own, numbered by their first appearance.
ghost use Rattle.std.specs.Hash as fed;
ghost use Rattle.std.specs.Hash.DefaultHasher.{initial, write};
ghost use Rattle.std.specs.Prelude.{◌≡◌, ◌+◌, ◌<◌, ◌≤◌, ◌^◌, [], fold, length, IfOk, OnOk};
ghost use Rattle.feed_faults.specs.Records.{row_count};
ghost use Rattle.feed_faults.specs.AcceptedFeed.{name_number, with_column};
ghost use Rattle.feed_soundness.specs.AcceptedTables.{AreFormed};
ghost use Rattle.feed_build.specs.NameNumbers.{AreShort};
ghost use Rattle.feed_build.specs.TableNames.{names_by_column, HasNames};

use feed_files::{ColumnName, FileName};
use feed_rows::{Id, NameList};
use feed_tables::{CallTable, Tables};
use feed_text::{Table, is_filled};
use indexmap::IndexSet;
use std::alloc::{AllocError, Global};
use std::hash::{BuildHasher, DefaultHasher, Hasher};
use std::marker::Model;

// The columns of such names. Those of one kind stand in columns of one name.
const NAME_COLUMNS: [(FileName, ColumnName); 9] = [
    (FileName::Trips, ColumnName::ServiceId),
    (FileName::Calendar, ColumnName::ServiceId),
    (FileName::CalendarDates, ColumnName::ServiceId),
    (FileName::Timeframes, ColumnName::ServiceId),
    (FileName::Routes, ColumnName::NetworkId),
    (FileName::Networks, ColumnName::NetworkId),
    (FileName::Timeframes, ColumnName::TimeframeGroupId),
    (FileName::FareProducts, ColumnName::FareProductId),
    (FileName::FareLegRules, ColumnName::LegGroupId),
];

/// A hash with a seed. Names are a stranger's text, and no random number is at hand where a feed is read, so the seed is made
/// of all the names of the feed: whoever chooses names to collide changes the seed by them. That makes a slow feed hard to
/// find, and isn't a promise that there is none.
#[derive(Clone, Copy)]
pub struct NameHash {
    seed: u64,
}

impl NameHash {
    /// The hash for the names of these tables.
    pub fn of<C: CallTable>(tables: &Tables<C>) -> NameHash {
        let mut hasher = DefaultHasher::new();
        for &(file, column) in &NAME_COLUMNS {
            let table = tables.get(file);
            for row in 0..table.rows() {
                hasher.write(table.field(row, column));
            }
        }
        NameHash {
            seed: hasher.finish(),
        }
    }
}

impl BuildHasher for NameHash {
    type Hasher = DefaultHasher;

    ghost build_hasher = { λ s. fold write initial (fed.u64 s.seed) };

    fn build_hasher(&self) -> DefaultHasher {
        let mut hasher = DefaultHasher::new();
        hasher.write_u64(self.seed);
        hasher
    }
}

/// Names in the order of their first appearance, which is their numbers. Contracts see it as the list of names.
pub struct Numbering<'t> {
    names: IndexSet<&'t [u8], NameHash>,
}

// Written out, so that what holds one needn't look into it to let go of it.
impl<'t> Drop for Numbering<'t> {
    fn drop(self) {
        let Numbering { names: _ } = self;
    }
}

impl<'t> Model for Numbering<'t> {
    ghost use Rattle.std.specs.Prelude.{ℕ, List};
    ghost use Rattle.feed_build.specs.NameNumbers.{IsNumbering, names_in};

    ghost Value = { List (List ℕ) };

    ghost view = { λ n. names_in n.names };

    ghost invariant = { λ n. IsNumbering (names_in n.names) };
}

impl<'t> Numbering<'t> {
    // No names yet.
    fn none(alloc: Global, hash: NameHash) -> Numbering<'t>
        ensures { result ≡ [] }
    {
        Numbering {
            names: IndexSet::with_hasher(alloc, hash),
        }
    }

    // Adds the names in this column of the files that `NAME_COLUMNS` gives it.
    fn add<C: CallTable>(
        &mut self,
        tables: &'t Tables<'t, C>,
        column: ColumnName,
    ) -> Result<(), AllocError>
        requires formed { AreFormed tables.now }
        requires none { self.old ≡ [] }
        ensures { OnOk result (self.new ≡ names_by_column tables.now column) }
    {
        for &(file, name) in &NAME_COLUMNS {
            if name == column {
                self.add_column(tables.get(file), name)?;
            }
        }
        Ok(())
    }

    // Puts the new names of a column behind these.
    #[tactic(auto, unfolding(feed_faults::specs::AcceptedFeed::with_name))]
    fn add_column(&mut self, table: &'t Table, column: ColumnName) -> Result<(), AllocError>
        requires short { AreShort table.now column }
        requires few { length self.old + row_count table.now < 2 ^ 32 }
        ensures names { OnOk result (self.new ≡ with_column self.old table.now column) }
        ensures grows { OnOk result (length self.new ≤ length self.old + row_count table.now) }
    {
        for row in 0..table.rows() {
            let name = table.field(row, column);
            if is_filled(name) {
                self.names.insert(name)?;
            }
        }
        Ok(())
    }

    /// The names, as ids.
    ///
    /// # Errors
    /// Want of memory.
    pub fn ids(&self, alloc: Global) -> Result<NameList, AllocError>
        ensures { IfOk result (λ ids. ids ≡ self.now) }
    {
        let names = self.names.as_slice();
        let mut ids = NameList::empty(alloc);
        for place in 0..names.len() {
            ids.push(Id::copy_of(alloc, names[place])?)?;
        }
        Ok(ids)
    }
}

/// The place of a name among others; their number where it isn't one of them.
pub fn name_number(names: &Numbering, name: &[u8]) -> u32
    ensures { result ≡ name_number names.now name.now }
{
    match names.names.get_index_of(name) {
        Some(place) => place as u32,
        None => names.names.len() as u32,
    }
}

/// The names of a feed that have no rows of their own, by kind.
#[derive(Drop)]
pub struct Names<'t> {
    /// The names of services.
    pub services: Numbering<'t>,
    /// The names of fare networks.
    pub networks: Numbering<'t>,
    /// The names of timeframe groups.
    pub frames: Numbering<'t>,
    /// The names of fare products.
    pub products: Numbering<'t>,
    /// The names of leg groups.
    pub groups: Numbering<'t>,
}

impl<'t> Names<'t> {
    /// The names of these tables.
    ///
    /// # Errors
    /// Want of memory.
    pub fn of<C: CallTable>(
        alloc: Global,
        tables: &'t Tables<'t, C>,
    ) -> Result<Names<'t>, AllocError>
        requires formed { AreFormed tables.now }
        ensures { IfOk result (HasNames tables.now) }
    {
        let hash = NameHash::of(tables);
        let mut names = Names {
            services: Numbering::none(alloc, hash),
            networks: Numbering::none(alloc, hash),
            frames: Numbering::none(alloc, hash),
            products: Numbering::none(alloc, hash),
            groups: Numbering::none(alloc, hash),
        };
        match names.add(tables) {
            Ok(()) => Ok(names),
            Err(AllocError) => Err(AllocError),
        }
    }

    // Adds those of these tables, where there are none yet.
    fn add<C: CallTable>(&mut self, tables: &'t Tables<'t, C>) -> Result<(), AllocError>
        requires formed { AreFormed tables.now }
        requires none { self.old ≡ record { services = []; networks = []; frames = []; products = []; groups = [] } }
        ensures { OnOk result (HasNames tables.now self.new) }
    {
        self.services.add(tables, ColumnName::ServiceId)?;
        self.networks.add(tables, ColumnName::NetworkId)?;
        self.frames.add(tables, ColumnName::TimeframeGroupId)?;
        self.products.add(tables, ColumnName::FareProductId)?;
        self.groups.add(tables, ColumnName::LegGroupId)
    }

    /// The names of services, networks, timeframe groups, products and leg groups, as ids.
    ///
    /// # Errors
    /// Want of memory.
    pub fn ids(
        &self,
        alloc: Global,
    ) -> Result<(NameList, NameList, NameList, NameList, NameList), AllocError>
        ensures { IfOk result (λ ids. ids ≡ (self.now.services, self.now.networks, self.now.frames, self.now.products, self.now.groups)) }
    {
        Ok((
            self.services.ids(alloc)?,
            self.networks.ids(alloc)?,
            self.frames.ids(alloc)?,
            self.products.ids(alloc)?,
            self.groups.ids(alloc)?,
        ))
    }
}
