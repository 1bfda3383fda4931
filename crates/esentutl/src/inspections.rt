//! A volume is looked at, and what is asked of it is told.

ghost use Rattle.std.specs.Prelude.{◌≡◌, ◌≤◌, ℕ, [], List, Option, Some, length, IfOk};
ghost use Rattle.checkpoint.specs.declared.image.TheConstants.{MAX_PAGES};
ghost use Rattle.database_state.specs.State.{DatabaseState};
ghost use Rattle.image_findings.specs.Findings.{IsConsistent};
ghost use Rattle.image_writing.specs.EngineImages.{contents_of};
ghost use Rattle.laws_engine.specs.EngineState.{HasRoomForEnds};
ghost use Rattle.soft_recovery.specs.Inspecting.{IsFoundDatabase, IsStanding};
ghost use Rattle.soft_recovery.specs.Recovering.{HoldsRecovered};
ghost use Rattle.store_core.specs.Stands.{Checkpoint};
ghost use Rattle.tool_dump.specs.SpaceTexts.{space_text};
ghost use Rattle.tool_integrity.specs.IntegrityLines.{clean_line};
ghost use Rattle.esentutl.specs.declared.words.Form.TheVariants as form;
ghost use Rattle.esentutl.specs.declared.words.RunOptions.{RunOptions};
ghost use Rattle.esentutl.specs.Inspections.{IsHeaderText, IsImageText, IsSpaceText, IsTextOf};
ghost use Rattle.esentutl.specs.InspectionEnds.{TellsText};
ghost use Rattle.esentutl.specs.TopCall.{Ending, EndsBy, status_of, form_of_ending};
ghost use Rattle.esentutl.specs.Volumes.{volume_side};

use crate::ends::tell_uninspected;
use crate::report::tell_bytes;
use crate::words::{DEFAULT_SPAN_LIMIT, Inspection};
use checkpoint::{Image, Standing};
use engine_core::Engine;
use image_writing::image;
use jet_base::OutOfMemory;
use jet_io::Sink;
use jet_volume::Volume;
use log_grammar::cut_bytes_begin_with_no_entry;
use page_space::Space;
use soft_recovery::{FoundDatabase, inspect};
use std::alloc::Global;
use tool_dump::{
    DatabaseHeader, checkpoint, header, log, space, trees_of_a_consistent_image_are_sound,
};
use tool_integrity::clean_line;

/// Looks at a volume, and tells what is asked of it. It answers the exit status, and hands the volume back, to which nothing was written.
pub fn inspect_volume<V: Volume, K: Sink>(
    alloc: Global,
    asked: Inspection,
    volume: V,
    out: &mut K,
) -> (u8, V)
    // No script is read.
    ensures ends { (options : RunOptions) (left : Option (List ℕ)) (source : ℕ) → (opening : DatabaseState) × (ending : Ending) × (result.0 ≡ status_of ending)
        × (form.Inspection asked ≡ form_of_ending options ending)
        × EndsBy options (record {
          left_before = left;
          left_after = left;
          source_before = source;
          source_after = source;
          taken_before = K.taken out.old;
          taken_after = K.taken out.new;
          sink_before = K.faults out.old;
          sink_after = K.faults out.new;
          volume_before = V.faults volume;
          volume_after = V.faults result.1;
        }) (volume_side V.tells_contents V.seen V.moment V.left_at volume result.1) opening [] ending }
    ensures identity { V.identity result.1 ≡ V.identity volume }
{
    match inspect(alloc, DEFAULT_SPAN_LIMIT, volume) {
        Ok(inspected) => {
            let status = tell_database(
                alloc,
                asked,
                inspected.store.standing(),
                &inspected.database,
                inspected.log.as_slice(),
                out,
            );
            (status, inspected.store.into_volume())
        }
        Err(fault) => (
            tell_uninspected(alloc, asked, &fault.cause, out),
            fault.volume,
        ),
    }
}

/// Tells what is asked of a database that was found.
#[tactic(none)]
fn tell_database<K: Sink>(
    alloc: Global,
    asked: Inspection,
    standing: &Standing,
    database: &FoundDatabase,
    log: &[u8],
    out: &mut K,
) -> u8
    requires found { (checkpoint : Option Checkpoint) × IsStanding checkpoint standing.now × IsFoundDatabase checkpoint log.now database.now }
    requires room { HasRoomForEnds database.now.engine }
    ensures { (checkpoint : Option Checkpoint) → IsStanding checkpoint standing.now → (found : IsFoundDatabase checkpoint log.now database.now)
        → TellsText (IsTextOf asked checkpoint log.now found.holds.state) (K.taken out.old) (K.taken out.new) (K.faults out.old) (K.faults out.new) result }
{
    match text_of(alloc, asked, standing, database, log) {
        Ok(text) => tell_bytes(text.as_slice(), out),
        Err(OutOfMemory) => 7,
    }
}

/// The text that is asked for.
#[tactic(none)]
fn text_of(
    alloc: Global,
    asked: Inspection,
    standing: &Standing,
    database: &FoundDatabase,
    bytes: &[u8],
) -> Result<Vec<u8>, OutOfMemory>
    requires found { (checkpoint : Option Checkpoint) × IsStanding checkpoint standing.now × IsFoundDatabase checkpoint bytes.now database.now }
    requires room { HasRoomForEnds database.now.engine }
    ensures { IfOk result (λ text. (checkpoint : Option Checkpoint) → IsStanding checkpoint standing.now → (found : IsFoundDatabase checkpoint bytes.now database.now)
        → IsTextOf asked checkpoint bytes.now found.holds.state text.items) }
{
    match asked {
        Inspection::Header => header_of(alloc, standing, database),
        Inspection::Checkpoint => checkpoint(alloc, standing),
        Inspection::Log => log(alloc, database.number, bytes),
        Inspection::Space => space_of(alloc, standing, &database.engine),
        Inspection::Integrity => clean_line_of(alloc, &database.engine),
    }
}

/// The text of the header. The log has a whole entry behind the checkpoint where it led on from there.
#[tactic(none)]
fn header_of(
    alloc: Global,
    standing: &Standing,
    database: &FoundDatabase,
) -> Result<Vec<u8>, OutOfMemory>
    ensures { IfOk result (λ text. (checkpoint : Option Checkpoint) → IsStanding checkpoint standing.now → (stream : List ℕ) → (found : IsFoundDatabase checkpoint stream database.now)
        → IsHeaderText checkpoint stream found.holds.state text.items) }
{
    cut_bytes_begin_with_no_entry();
    let engine = &database.engine;
    let number = engine.number();
    let tables = table_count(engine);
    let told = DatabaseHeader {
        has_session: database.has_session,
        has_entry: database.number < number,
        format: standing.format,
        number,
        tables,
    };
    header(alloc, &told)
}

/// The text of the pages. Those of the database that is recovered are the pages of its image; a new volume has none.
#[tactic(none)]
fn space_of(alloc: Global, standing: &Standing, engine: &Engine) -> Result<Vec<u8>, OutOfMemory>
    requires holds { (checkpoint : Option Checkpoint) × (stream : List ℕ) × HoldsRecovered checkpoint stream engine.now }
    requires room { HasRoomForEnds engine.now }
    ensures { IfOk result (λ text. (checkpoint : Option Checkpoint) → IsStanding checkpoint standing.now → (stream : List ℕ) → (holds : HoldsRecovered checkpoint stream engine.now)
        → IsSpaceText checkpoint holds.state text.items) }
{
    if standing.number == 0 {
        space(alloc, &Space::new(alloc), None)
    } else {
        space_of_engine(alloc, engine)
    }
}

/// The text of the pages of an engine's image.
#[tactic(none)]
fn space_of_engine(alloc: Global, engine: &Engine) -> Result<Vec<u8>, OutOfMemory>
    requires holds { (checkpoint : Option Checkpoint) × (stream : List ℕ) × HoldsRecovered checkpoint stream engine.now }
    requires room { HasRoomForEnds engine.now }
    ensures { IfOk result (λ text. (checkpoint : Option Checkpoint) (stream : List ℕ) (holds : HoldsRecovered checkpoint stream engine.now) → IsImageText holds.state text.items) }
{
    match image(alloc, engine) {
        Ok(image) => space_of_image(alloc, image),
        Err(fault) => Err(fault),
    }
}

/// The text of the pages of an image, which move into a space.
#[tactic(none)]
fn space_of_image(alloc: Global, image: Image) -> Result<Vec<u8>, OutOfMemory>
    requires consistent { IsConsistent (contents_of image) }
    requires few { length image.pages.items ≤ MAX_PAGES }
    ensures { IfOk result (λ text. text.items ≡ space_text image.pages.items (Some image.catalog_root)) }
{
    trees_of_a_consistent_image_are_sound();
    match Space::holding(alloc, image.pages) {
        Ok(pages) => space(alloc, &pages, Some(image.catalog_root)),
        Err(fault) => Err(fault),
    }
}

/// The line of a database of which nothing is found.
#[tactic(none)]
fn clean_line_of(alloc: Global, engine: &Engine) -> Result<Vec<u8>, OutOfMemory>
    ensures { IfOk result (λ line. (checkpoint : Option Checkpoint) (stream : List ℕ) (holds : HoldsRecovered checkpoint stream engine.now)
        → line.items ≡ clean_line holds.state.number (length holds.state.tables)) }
{
    clean_line(alloc, engine.number(), table_count(engine))
}

/// How many tables it has.
#[tactic(none)]
fn table_count(engine: &Engine) -> u64
    ensures { result ≡ length engine.now.store.tables }
{
    engine.tables().tables().len() as u64
}
