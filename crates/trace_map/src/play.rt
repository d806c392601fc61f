ghost use Rattle.std.specs.Prelude.{◌≡◌, count_by};
ghost use Rattle.trace_map.specs.Played.{is_enter, is_erase, played, played_all};

use paging::map::ChangeableMap;
use records::record::Record;

// How many of the records are enters. This and the next stay two: one function of a test would be the chain again.
pub fn enters(records: &[Record]) -> usize
    ensures { result ≡ count_by is_enter records.now }
{
    records
        .iter()
        .filter(|next| matches!(next, Record::Enter { .. }))
        .count()
}

// How many of the records are erases.
pub fn erases(records: &[Record]) -> usize
    ensures { result ≡ count_by is_erase records.now }
{
    records
        .iter()
        .filter(|next| matches!(next, Record::Erase { .. }))
        .count()
}

// One record played on a map. The fields of a decoded record are in their ranges, so the map does not refuse it.
fn play<M: ChangeableMap>(map: &mut M, next: Record)
    ensures kept { M.Map.sound map.old → M.Map.sound map.new }
    ensures frames { M.Map.sound map.old → M.Map.frame map.new ≡ played next (M.Map.frame map.old) }
{
    match next {
        Record::Enter {
            process,
            page,
            frame,
        } => {
            let _ = map.enter(process, page, frame);
        }
        Record::Erase { process, page } => {
            let _ = map.erase(process, page);
        }
        _ => {}
    }
}

// All records played on a map, in their order.
pub fn play_all<M: ChangeableMap>(map: &mut M, records: &[Record])
    ensures kept { M.Map.sound map.old → M.Map.sound map.new }
    ensures frames { M.Map.sound map.old → M.Map.frame map.new ≡ played_all records.now (M.Map.frame map.old) }
{
    for next in records {
        play(map, *next);
    }
}
