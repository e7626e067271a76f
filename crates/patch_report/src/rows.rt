//! Rows in turn order, by their sites.
ghost use Rattle.std.specs.Prelude.{◌≡◌, true, not, [], ◌∷◌, ◌++◌, map, slice_get, IfOk, OnOk};
ghost use Rattle.std.specs.Option.{option_copied};
ghost use Rattle.patch_report.specs.Grammar.{is_new, SitesApart};
ghost use Rattle.patch_report.specs.Rows.{row_with, sites_of};
ghost use Rattle.patch_report.specs.Values.{row_value};

use crate::row::ReportRow;
use indexmap::IndexSet;
use std::alloc::{AllocError, Global};
use std::marker::Model;

/// Rows in the order in which they came, no site twice.
#[derive(Drop)]
pub struct RowMap {
    rows: Vec<ReportRow>,
    /// The site of each row, at the row's place.
    sites: IndexSet<u32>,
}

impl Model for RowMap {
    ghost use Rattle.std.specs.Prelude.{◌≡◌, List};
    ghost use Rattle.patch_report.specs.Rows.{sites_of};
    ghost use Rattle.patch_report.specs.declared.row.ReportRow.{ReportRow};

    ghost Value = { List ReportRow };

    ghost view = { λ m. m.rows.items };

    ghost invariant = { λ m. m.sites.keys ≡ sites_of m.rows.items };
}

/// The sites of rows, at their places.
fn sites_of(alloc: Global, rows: &[ReportRow]) -> Result<IndexSet<u32>, AllocError>
    requires { SitesApart [] (map row_value rows.now) }
    ensures { IfOk result (λ sites. sites.keys ≡ sites_of rows.now) }
{
    let mut sites = IndexSet::with_capacity(alloc, rows.len())?;
    for row in rows {
        sites.insert(row.site)?;
    }
    Ok(sites)
}

/// The row at a place.
fn nth_row(rows: &[ReportRow], place: usize) -> Option<&ReportRow>
    ensures { option_copied result ≡ slice_get rows.now place }
{
    rows.get(place)
}

impl RowMap {
    /// No row.
    pub(crate) fn new(alloc: Global) -> Self
        ensures { result ≡ [] }
    {
        RowMap {
            rows: Vec::new(alloc),
            sites: IndexSet::new(alloc),
        }
    }

    /// These rows, none of which is copied.
    pub(crate) fn of_rows(alloc: Global, rows: Vec<ReportRow>) -> Result<RowMap, AllocError>
        requires { SitesApart [] (map row_value rows.items) }
        ensures { IfOk result (λ map. map ≡ rows.items) }
    {
        let sites = sites_of(alloc, &rows)?;
        Ok(RowMap { rows, sites })
    }

    /// The row of a site.
    pub(crate) fn get(&self, site: u32) -> Option<&ReportRow>
        ensures { option_copied result ≡ row_with site self.now }
    {
        let place = self.sites.get_index_of(&site)?;
        nth_row(&self.rows, place)
    }

    /// Whether there is a row of a site.
    pub(crate) fn holds(&self, site: u32) -> bool
        ensures { result ≡ not (is_new site (map row_value self.now)) }
    {
        self.sites.contains(&site)
    }

    /// The rows, in order.
    pub(crate) fn as_slice(&self) -> &[ReportRow]
        ensures { result.now ≡ self.now }
    {
        &self.rows
    }

    /// Appends a row, whose site is new.
    pub(crate) fn push(&mut self, row: ReportRow) -> Result<(), AllocError>
        requires { is_new row.site (map row_value self.old) ≡ true }
        ensures { OnOk result (self.new ≡ self.old ++ row ∷ []) }
    {
        let site = row.site;
        self.sites.reserve(1)?;
        self.rows.push(row)?;
        self.sites.insert(site).unwrap();
        Ok(())
    }
}
