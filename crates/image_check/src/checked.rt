//! A patched file with everything that the rules ask.
ghost use Rattle.std.specs.Prelude.{◌≡◌, ◌↔◌, ◌≤◌, IsTrue, IfOk};
ghost use Rattle.sound_images.specs.Cases.{case_of};
ghost use Rattle.image_check.specs.Verdict.{case_in, FailsBy, IsLeastOf};
ghost use Rattle.image_check.specs.Parts.{FailsIn, FailsAmong, FindsFirst};
ghost use Rattle.image_check.specs.Stretches.{HoldsTo};
ghost use Rattle.start_entries.specs.Laws.{IsBuilt};

use crate::byte_rule::{byte_fails, byte_passed};
use crate::code_rule::{code_fails, code_spans};
use crate::cutting::apart;
use crate::entry_rule::{entry_fails, entry_spans};
use crate::flat::FlatReport;
use crate::lesser::lesser;
use crate::placed::{by_place, codes_of};
use crate::placed_code::PlacedCode;
use crate::range_rule::range_fails;
use crate::rule::Rule;
use crate::site_rule::site_fails;
use crate::span::Span;
use crate::spans::{byte_spans, range_spans, site_spans};
use crate::write_rule::{write_fails, write_spans};
use elf_read::elf::Elf;
use patch_report::report::Report;
use start_entries::starts::Starts;
use std::alloc::{AllocError, Global};
use std::marker::Model;

/// An original, its patched file, the listed starts of the original, and the report. Clauses see their values.
#[derive(Drop)]
pub struct Checked<'a> {
    orig: &'a Elf<'a>,
    patched: &'a Elf<'a>,
    starts: &'a Starts,
    flat: FlatReport<'a>,
    codes: Vec<PlacedCode>,
}

impl<'a> Model for Checked<'a> {
    ghost use Rattle.image_check.specs.CodeParts.{IsReady};
    ghost use Rattle.sound_images.specs.Cases.{case_of};
    ghost use Rattle.image_check.specs.Verdict.{Given};

    ghost Value = { Given };

    ghost view = { λ k. record {
      original = k.orig.now.bytes;
      patched = k.patched.now.bytes;
      listed = k.starts.now;
      report = k.flat;
    } };

    ghost invariant = { λ k. IsReady
        (case_of k.orig.now.bytes k.patched.now.bytes k.starts.now k.flat) k.codes.items };
}

impl<'a> Checked<'a> {
    /// A file to be checked, with the starts of its original.
    pub fn new(
        alloc: Global,
        orig: &'a Elf<'a>,
        patched: &'a Elf<'a>,
        starts: &'a Starts,
        report: &'a Report,
    ) -> Result<Checked<'a>, AllocError>
        requires built { IsBuilt orig.now.bytes starts.now }
        ensures { IfOk result (λ k. case_in k
            ≡ case_of orig.now.bytes patched.now.bytes starts.now report.now.body) }
    {
        report.keeps();
        let _accepted = orig.file();
        let flat = FlatReport::new(alloc, report)?;
        let codes = by_place(codes_of(alloc, orig, starts, &flat)?)?;
        Ok(Checked {
            orig,
            patched,
            starts,
            flat,
            codes,
        })
    }

    /// Whether a rule fails at an address.
    fn fails(&self, rule: Rule, addr: u64) -> bool
        ensures { IsTrue result ↔ FailsBy (case_in self.now) rule addr }
    {
        match rule {
            Rule::Byte => byte_fails(self.orig, self.patched, &self.flat, addr),
            Rule::Write => write_fails(self.orig, self.patched, self.starts, &self.flat, addr),
            Rule::Entry => entry_fails(self.patched, self.starts, &self.flat, addr),
            Rule::Code => code_fails(self.patched, &self.flat, &self.codes, addr),
            Rule::Range => range_fails(self.orig, self.patched, &self.flat, addr),
            Rule::Site => site_fails(
                self.orig,
                self.patched,
                self.starts,
                self.flat.report(),
                addr,
            ),
        }
    }

    /// The spans in which a rule first fails, if it does.
    fn spans(&self, alloc: Global, rule: Rule) -> Result<Vec<Span>, AllocError>
        ensures { IfOk result (λ v. FindsFirst (case_in self.now) rule v.items) }
    {
        match rule {
            Rule::Byte => byte_spans(alloc, self.orig, self.patched),
            Rule::Write => write_spans(alloc, self.orig, self.patched, self.starts, &self.flat),
            Rule::Entry => {
                entry_spans(
                    alloc,
                    self.patched,
                    self.starts,
                    &self.flat,
                    self.flat.lines(),
                )
            }
            Rule::Code => code_spans(alloc, self.patched, &self.flat, &self.codes),
            Rule::Range => range_spans(alloc, self.orig, self.patched, self.flat.report()),
            Rule::Site => site_spans(alloc, self.patched, self.starts, self.flat.report()),
        }
    }

    /// The end of a stretch from `addr` on which a rule holds; `addr` itself if none is known.
    fn passed(&self, rule: Rule, addr: u64) -> u64
        ensures from { addr ≤ result }
        ensures holds { HoldsTo (case_in self.now) rule addr result }
    {
        match rule {
            Rule::Byte => byte_passed(self.orig, self.patched, &self.flat, addr),
            Rule::Write | Rule::Entry | Rule::Code | Rule::Range | Rule::Site => addr,
        }
    }

    /// The least address of a span at which a rule fails.
    fn first_in(&self, rule: Rule, span: Span) -> Option<u64>
        ensures { IsLeastOf (FailsIn (case_in self.now) rule span) result }
    {
        let mut addr = span.first;
        while addr < span.last {
            let next = self.passed(rule, addr);
            if next == addr {
                if self.fails(rule, addr) {
                    return Some(addr);
                }
                addr += 1;
            } else {
                addr = next;
            }
        }
        if span.first <= span.last && self.fails(rule, span.last) {
            Some(span.last)
        } else {
            None
        }
    }

    /// The least address of some spans at which a rule fails.
    fn least_in(&self, rule: Rule, spans: &[Span]) -> Option<u64>
        ensures { IsLeastOf (FailsAmong (case_in self.now) rule spans.now) result }
    {
        let mut least = None;
        for span in spans {
            least = lesser(least, self.first_in(rule, *span));
        }
        least
    }

    /// The least address at which a rule fails, and none where it fails nowhere.
    pub fn least(&self, alloc: Global, rule: Rule) -> Result<Option<u64>, AllocError>
        ensures { IfOk result (λ least. IsLeastOf (FailsBy (case_in self.now) rule) least) }
    {
        let spans = self.spans(alloc, rule)?;
        let parts = apart(alloc, &spans)?;
        Ok(self.least_in(rule, &parts))
    }
}
