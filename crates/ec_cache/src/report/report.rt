// Owed mentions by operation and by object.
ghost use Rattle.std.specs.Prelude.{◌≡◌, [], true, IfOk, OnOk, OnErr};
ghost use Rattle.ec_cache.specs.OfReport.Report as report;
ghost use Rattle.ec_cache.specs.OfReport.OwedOrder as owed_order;

use crate::report::maps::{self, Places, Rows};
use ec_base::{Duplicate, List, NoMemory, ObjId, OpNo, SortedMap};
use std::alloc::Global;
use std::marker::Model;

/// The owed mentions: pairs of a lost operation and one of its operands, in the order of issue.
///
/// They are kept by operation, and for each object the operations that are owed on it. So what is due on some objects is
/// found, and cleared, without a look at any other mention.
pub struct Report {
    alloc: Global,
    rows: Rows,
    places: Places,
}

// Who drops one calls this, and needn't take it apart.
impl Drop for Report {
    fn drop(self) {
        let Report {
            alloc: _,
            rows,
            places,
        } = self;
        drop(rows);
        drop(places);
    }
}

impl Model for Report {
    ghost use Rattle.std.specs.Prelude.{List, ℕ};
    ghost use Rattle.ec_cache.specs.OfReport.Report.{pairs_of};
    ghost use Rattle.ec_cache.specs.OfReport.Index.{HaveSameMentions};

    ghost Value = { List (ℕ × ℕ) };

    ghost view = { λ r. pairs_of r.rows };

    ghost invariant = { λ r. HaveSameMentions r.rows r.places };
}

impl Report {
    /// Nothing is owed.
    pub fn new(alloc: Global) -> Result<Report, NoMemory>
        ensures { IfOk result (λ made. made ≡ []) }
    {
        Ok(Report {
            alloc,
            rows: SortedMap::new(alloc),
            places: SortedMap::new(alloc),
        })
    }

    /// Each of these lost operations is owed on each of its objects. The operations rise, and are above those that are owed.
    pub fn owe(&mut self, lost: &[(OpNo, List<ObjId>)]) -> Result<(), NoMemory>
        requires { owed_order.come_behind lost.now self.old ≡ true }
        ensures ok { OnOk result (self.new ≡ report.owe lost.now self.old) }
        ensures err { OnErr result (self.new ≡ self.old) }
    {
        let mut rows = self.rows.duplicate()?;
        let mut places = self.places.duplicate()?;
        for (op, objs) in lost {
            maps::add(self.alloc, &mut rows, &mut places, *op, objs)?;
        }
        self.rows = rows;
        self.places = places;
        Ok(())
    }

    /// The operations owed on any of these objects, each once, in the order of issue.
    pub fn due(&self, touched: &[ObjId]) -> Result<Vec<OpNo>, NoMemory>
        ensures { IfOk result (λ ops. ops.items ≡ report.due touched.now self.now) }
    {
        maps::due(self.alloc, &self.places, touched)
    }

    /// Clears the mentions of these objects. It takes no memory.
    pub fn clear(&mut self, touched: &[ObjId])
        ensures { self.new ≡ report.clear touched.now self.old }
    {
        maps::forget_all(self.alloc, &mut self.rows, &mut self.places, touched);
    }

    /// The objects with owed mentions, each once, in the order of owing.
    pub fn objects(&self) -> Result<Vec<ObjId>, NoMemory>
        ensures { IfOk result (λ objs. objs.items ≡ report.objects self.now) }
    {
        maps::objects(self.alloc, &self.rows)
    }
}
