//! Names: the numbers (handles) by which processes know the objects of others.

ghost use Rattle.std.specs.{Prelude.{◌&&◌, not}, List.{list_any}};
ghost use Rattle.bd_space.specs.Words.{same};
ghost use Rattle.bd_space.specs.References as refer;
ghost use Rattle.bd_space.specs.Names as names_of;
ghost use Rattle.bd_space.specs.Notices.{is_name_of};
ghost use Rattle.bd_space.specs.Space.{Space};
ghost use Rattle.bd_records.specs.Numbers.{IsNextNumber};

use crate::table::ObjectTable;
use bd_records::{name_number, named_object, next_number};
use bd_space::Identity;

impl ObjectTable {
    ghost use Rattle.bd_ways.specs.Tables.{Tells};
    ghost use Rattle.bd_objects.specs.Stands.{StandsFor};

    /// The object that the number names for the process.
    #[tactic(auto, unfolding(bd_space::specs::Names::named))]
    pub fn named(&self, p: u64, n: u32) -> Option<Identity>
        ensures { Tells (StandsFor self.now) result (λ s. names_of.named s p n) }
    {
        named_object(&self.records.names, p, n)
    }

    /// The least number from this one on that names something for the process. Looks at each number up to it.
    pub fn next_number(&self, p: u64, from: u32) -> Option<u32>
        ensures { (s : Space) → StandsFor self.now s → IsNextNumber s.names p from result }
    {
        next_number(&self.records.names, p, from)
    }

    // Whether the object is another's, and a strong reference carries the process's name of it.
    fn is_strongly_named(&self, p: u64, o: Identity) -> bool
        ensures { Tells (StandsFor self.now) result
            (λ s. not (refer.owned_in s.objects p o)
            && list_any (λ r. r.strong && same r.object o && refer.gives_name_to p r.holder) s.references) }
    {
        !self.records.owns(p, o) && self.records.refers_strongly(p, o)
    }

    /// The object that the number names for the process, where the process refers to it strongly.
    #[tactic(auto, unfolding(bd_space::specs::Names::strongly_named))]
    pub fn strongly_named(&self, p: u64, n: u32) -> Option<Identity>
        ensures { Tells (StandsFor self.now) result (λ s. names_of.strongly_named s p n) }
    {
        let o = named_object(&self.records.names, p, n)?;
        if self.is_strongly_named(p, o) {
            Some(o)
        } else {
            None
        }
    }

    /// Whether the process has a name for the object.
    pub(crate) fn has_name(&self, p: u64, o: Identity) -> bool
        ensures { Tells (StandsFor self.now) result (λ s. is_name_of s.names p o) }
    {
        name_number(&self.records.names, p, o).is_some()
    }

    /// The process's number of the object.
    pub fn number_of(&self, p: u64, o: Identity) -> Option<u32>
        ensures { Tells (StandsFor self.now) result (λ s. names_of.number_in s.names p o) }
    {
        name_number(&self.records.names, p, o)
    }
}
