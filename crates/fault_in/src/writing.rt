// Writing one object whose references are filled.
ghost use Rattle.std.specs.Prelude.{◌≡◌, ◌≤◌, Some, length, map, IfOk, IfErr, OnOk, OnErr};
ghost use Rattle.cas_model.specs.Content.{content_size, content_words};
ghost use Rattle.cas_history.specs.Cost.{object_cost};
ghost use Rattle.cas_port.specs.Blank.{none_written};
ghost use Rattle.cas_port.specs.Calls.{IsLawful};
ghost use Rattle.graph_db.specs.Events.{SpeaksFor};
ghost use Rattle.graph_db.specs.Storing.{IsOpenAlone};
ghost use Rattle.fault_in.specs.Order.{FillsLast, IsQuiet};
ghost use Rattle.fault_in.specs.Bringing.{AsksAtMost, HasBrought, BringStops, HasWords, IsReady};

use cas_model::{
    Digest, Note, Object, Place, Space, Stage, Who, content_length, data_word, head_word,
};
use cas_port::{Block, CellPort, PortError, Steps};
use std::sync::ledger::Ledger;

// Binds the digest, claims the content, writes it and fills it in. It answers the digest's record.
pub(crate) fn bring<L: Ledger, P: CellPort>(
    port: &mut P,
    who: Who,
    digest: &Digest,
    object: &Object,
    places: &[u64],
    steps: &mut Steps<L>,
) -> Result<Place, PortError>
    requires speaks { SpeaksFor (P.view port.old) who }
    requires few_refs { length places.now ≤ 65535 }
    requires short { length object.now.data ≤ 16777215 }
    requires ready { IsReady (P.view port.old) digest.now object.now places.now }
    ensures ok { IfOk result (HasBrought who digest.now object.now (P.view port.old) (P.view port.new)) }
    ensures err { IfErr result (BringStops who digest.now object.now (P.view port.old) (P.view port.new)) }
    ensures lawful { IsLawful (P.view port.old) (P.view port.new) }
    ensures cost { AsksAtMost who (object_cost object.now) (P.view port.old) (P.view port.new) }
    ensures last { OnOk result (FillsLast (P.view port.old).start who digest.now (P.view port.old).seen (P.view port.new).seen) }
    ensures quiet { OnErr result (IsQuiet who (P.view port.old).seen (P.view port.new).seen) }
{
    let note = Note {
        who,
        stage: Stage::Deep,
    };
    let data = object.data.list();
    let bound = port.bind(note, Space::Objects, digest, steps)?;
    let mut block = port.claim(note, content_length(places.len() as u64, data.len() as u64))?;
    write_content(port, who, places, data, &mut block);
    port.fill(note, bound.place, block)?;
    Ok(bound.place)
}

// Writes the words of a content into its new block: the head, the places of the references, the data.
fn write_content<P: CellPort>(
    port: &mut P,
    who: Who,
    places: &[u64],
    data: &[u8],
    block: &mut Block,
)
    requires few_refs { length places.now ≤ 65535 }
    requires short { length «data».now ≤ 16777215 }
    requires length { block.old.length ≡ content_size (length places.now) (length «data».now) }
    requires opened { IsOpenAlone (P.view port.old) who block.old (none_written block.old.length) }
    ensures words { HasWords who (P.view port.old) (P.view port.new) block.old (map Some (content_words places.now «data».now)) }
    ensures block { block.new ≡ block.old }
    ensures lawful { IsLawful (P.view port.old) (P.view port.new) }
{
    let count = places.len() as u64;
    let length = data.len() as u64;
    port.write(block, 0, head_word(count, length));
    for (i, place) in places.iter().enumerate() {
        port.write(block, i as u64 + 1, *place);
    }
    for index in 0..length.div_ceil(8) {
        port.write(block, count + 1 + index, data_word(data, index));
    }
}
