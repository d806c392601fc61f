// Lines swapped out: at a switch all of them, at a change of the map those of one page.
ghost use Rattle.std.specs.Prelude.{◌≡◌, ℕ, List, map};
ghost use Rattle.caches.specs.Swapped.{of_page, swapped};
ghost use Rattle.rules.specs.Cache.{swap_all};
ghost use Rattle.rules.specs.Calls.{swap_pages};

use base::block::{Page, Process};
use tables::types::{LineState, Processor, V_SETS, V_WAYS, VLine};

// Whether a line is of the page, where one is given.
#[tactic(auto, unfolding(rules::specs::Sizes::page_blocks))]
fn is_of(line: &VLine, page: Option<Page>) -> bool
    ensures { result ≡ of_page page line.now }
{
    page.is_none_or(|page| line.tag.page() == page)
}

// A valid line becomes swapped, where it is of the page.
fn swap_out(line: &mut VLine, page: Option<Page>)
    ensures { line.new ≡ swapped page line.old }
{
    if line.state == LineState::Valid && is_of(line, page) {
        line.state = LineState::Swapped;
    }
}

// The lines of a set.
fn swap_set(lines: &mut [VLine; V_WAYS], page: Option<Page>)
    ensures { lines.new ≡ map (swapped page) lines.old }
{
    for line in lines.iter_mut() {
        swap_out(line, page);
    }
}

// The lines of all sets.
fn swap_sets(sets: &mut [[VLine; V_WAYS]; V_SETS], page: Option<Page>)
    ensures { sets.new ≡ map (map (swapped page)) sets.old }
{
    for lines in sets.iter_mut() {
        swap_set(lines, page);
    }
}

// The processor goes over to a process, and its lines are swapped out.
pub fn swap_lines(p: &mut Processor, process: Process)
    ensures { p.new ≡ swap_all p.old process.0 }
{
    swap_sets(&mut p.v, None);
    p.process = process;
}

// The lines of the page are swapped out, where the processor runs the process.
pub fn swap_page(p: &mut Processor, process: Process, page: Page)
    ensures { p.new ≡ swap_pages process.0 page.0 p.old }
{
    if p.process == process {
        swap_sets(&mut p.v, Some(page));
    }
}
