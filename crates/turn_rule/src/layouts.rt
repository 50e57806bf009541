ghost use Rattle.std.specs.Prelude.{◌≤◌, IfOk, length};
ghost use Rattle.turn_rule.specs.Layouts.{AreLayouts};

use hyper_outside::NoMemory;
use position_rank::{Layout, layout_count};
use std::alloc::Global;

/// All layouts of one to three checkers, by rising rank. It asks for memory, and may answer
/// `NoMemory`.
pub fn all_layouts(alloc: Global, checkers: u8) -> Result<Vec<Layout>, NoMemory>
    requires low { 1 ≤ checkers }
    requires high { checkers ≤ 3 }
    ensures all { IfOk result (λ all. AreLayouts checkers all.items) }
    ensures few { IfOk result (λ all. length all.items ≤ 3276) }
{
    let mut all = Vec::new(alloc);
    for rank in 0..layout_count(checkers) {
        all.push(Layout::unrank(checkers, rank))?;
    }
    Ok(all)
}
