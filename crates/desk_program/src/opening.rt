//! A desk is opened over the tables of a store, with the settings of a text.
//!
//! What owns much is given back by `drop`, whose proof stands once; at the end of its scope it
//! would be taken apart for each function's own proof.
ghost use Rattle.std.specs.Prelude.{◌≡◌, ◌≢◌, ◌≤◌, ℕ, List, Ok, Err, length, IfErr, IfOk, IfSome};
ghost use Rattle.std.specs.Prelude.{OnOk, Result};
ghost use Rattle.store_core.specs.Seen.{connection_of, state_of};
ghost use Rattle.service_core.specs.Attaching.{IsAttached};
ghost use Rattle.service_core.specs.Seen.{settings_of, tables_of};
ghost use Rattle.service_core.specs.declared.fault.AttachFault.{AttachFault};
ghost use Rattle.stream_core.specs.Seen.{HaveOneWriter};
ghost use Rattle.stream_core.specs.Written.{Prints};
ghost use Rattle.desk_program.specs.FaultLines.{attach_fault_text, input_fault_text};
ghost use Rattle.desk_program.specs.FaultLines.{store_fault_text};
ghost use Rattle.desk_program.specs.Input as form;
ghost use Rattle.desk_program.specs.Opening.{AreOpened, EndsWith, FailsToAttach, IsGivenBack};
ghost use Rattle.desk_program.specs.Opening.{IsNotOpened, IsOpened, IsOpeningFault};
ghost use Rattle.desk_program.specs.Script.{bad_words_text};
ghost use Rattle.desk_program.specs.Status.{code_of};

use crate::fault::InputFault;
use crate::fault_lines::{
    put_attach_fault, put_bad_words, put_input_fault, put_settings_fault, put_store_fault,
};
use crate::input::take_input;
use crate::script::read_settings;
use crate::status::Status;
use service_core::Desk;
use settings_core::{Settings, SettingsFault};
use std::alloc::Global;
use std::io::{Read, Write};
use store_core::{Backend, Store, StoreFault};
use stream_core::{CountedReader, CountedWriter};

/// All that a reader of a settings file has left, where that is at most 1,048,576 bytes: `TooLong`
/// where it is more, and `Read` where a read failed or it was out of memory.
pub fn take_settings<R: Read>(alloc: Global, reader: &mut R) -> Result<Vec<u8>, InputFault>
    ensures whole { IfOk result (λ taken. (length taken.items ≤ form.input_limit)
        × IfSome (R.remaining reader.old) (λ all. all ≡ taken.items)) }
    ensures long { result ≡ Err InputFault.TooLong → form.IsLong (R.remaining reader.old) }
    ensures kinds { IfErr result (λ fault. fault ≢ InputFault.TooLong → fault ≡ InputFault.Read) }
{
    let mut reader = CountedReader::new(reader);
    take_input(alloc, &mut reader)
}

/// Prints the line of a fault of the input, and answers the status 4.
pub fn tell_input_fault<W: Write>(fault: InputFault, output: &mut CountedWriter<'_, W>) -> u8
    ensures same_writer { HaveOneWriter output.new output.old }
    ensures told { EndsWith W.contents (input_fault_text fault) 4 output.old output.new result }
{
    put_input_fault(output, fault);
    Status::Failed.after(output)
}

/// Prints the line of a fault of the store, and answers the status 4.
pub fn tell_store_fault<W: Write>(fault: StoreFault, output: &mut CountedWriter<'_, W>) -> u8
    ensures same_writer { HaveOneWriter output.new output.old }
    ensures told { EndsWith W.contents (store_fault_text fault) 4 output.old output.new result }
{
    put_store_fault(output, fault);
    Status::Failed.after(output)
}

/// Prints that words aren't understood, and answers the status 2, or 4 where a write failed.
pub fn tell_bad_words<W: Write>(output: &mut CountedWriter<'_, W>) -> u8
    ensures same_writer { HaveOneWriter output.new output.old }
    ensures told { EndsWith W.contents bad_words_text 2 output.old output.new result }
{
    put_bad_words(output);
    Status::BadWords.after(output)
}

/// The desk over the tables of a store, with the settings of a text. Tables that are missing are
/// made, and those of version 1 are brought to the present one. Tables that are there keep their
/// rows, but for the due moments, which become those by these settings.
///
/// Where there is none, a line tells the fault, and the exit status is the error: 3 for one of the
/// settings, and 4 for one of the store or of attaching, or where the write of that line failed. The
/// store is let go then.
pub fn open_desk<S: Backend + Drop, W: Write>(
    alloc: Global,
    store: Store<S>,
    settings: &[u8],
    output: &mut CountedWriter<'_, W>,
) -> Result<Desk<S>, u8>
    ensures same_writer { HaveOneWriter output.new output.old }
    ensures opened { IfOk result (λ desk. IsOpened settings.now (state_of S.Store store)
        (settings_of S.Store desk) (tables_of S.Store desk)) }
    ensures quiet { OnOk result (output.new ≡ output.old) }
    ensures told { IfErr result (λ status. IsNotOpened S.Store W.contents settings.now
        (connection_of S.Store store) output.old output.new status) }
{
    match open_desk_whole(alloc, store, settings, output) {
        Ok(desk) => Ok(desk),
        Err((status, store)) => {
            drop(store);
            Err(status)
        }
    }
}

/// The desk as `open_desk` opens it. Where there is none, the store is given back with the status,
/// to whoever closes its file.
pub fn open_desk_whole<S: Backend, W: Write>(
    alloc: Global,
    store: Store<S>,
    settings: &[u8],
    output: &mut CountedWriter<'_, W>,
) -> Result<Desk<S>, (u8, Store<S>)>
    ensures same_writer { HaveOneWriter output.new output.old }
    ensures opened { IfOk result (λ desk. IsOpened settings.now (state_of S.Store store)
        (settings_of S.Store desk) (tables_of S.Store desk)) }
    ensures quiet { OnOk result (output.new ≡ output.old) }
    ensures told { IfErr result (λ back. IsGivenBack S.Store W.contents settings.now
        (connection_of S.Store store) (connection_of S.Store back.1) output.old output.new back.0) }
{
    match open(alloc, store, settings, output) {
        Ok(desk) => Ok(desk),
        Err((status, store)) => Err((status.after(output), store)),
    }
}

/// The desk over the tables of a store, or the status of the fault that a line tells; the store is
/// given back with it.
pub(crate) fn open<S: Backend, W: Write>(
    alloc: Global,
    store: Store<S>,
    settings: &[u8],
    output: &mut CountedWriter<'_, W>,
) -> Result<Desk<S>, (Status, Store<S>)>
    ensures same_writer { HaveOneWriter output.new output.old }
    ensures opened { IfOk result (λ desk. IsOpened settings.now (state_of S.Store store)
        (settings_of S.Store desk) (tables_of S.Store desk)) }
    ensures quiet { OnOk result (output.new ≡ output.old) }
    ensures told { IfErr result (λ back. (given : Result Settings SettingsFault)
        × (line : List ℕ) × form.GivesSettings settings.now given
        × IsOpeningFault S.Store given (connection_of S.Store store)
        (connection_of S.Store back.1) line (code_of back.0)
        × Prints W.contents output.old output.new line) }
{
    match read_settings(alloc, settings) {
        Ok(settings) => open_tables(alloc, store, settings, output),
        Err(fault) => {
            put_settings_fault(output, fault);
            Err((Status::BadSettings, store))
        }
    }
}

/// Makes the tables that are missing, brings those of version 1 to the present one, and attaches
/// the settings.
fn open_tables<S: Backend, W: Write>(
    alloc: Global,
    store: Store<S>,
    settings: Settings,
    output: &mut CountedWriter<'_, W>,
) -> Result<Desk<S>, (Status, Store<S>)>
    ensures same_writer { HaveOneWriter output.new output.old }
    ensures opened { IfOk result (λ desk. AreOpened settings (state_of S.Store store)
        (settings_of S.Store desk) (tables_of S.Store desk)) }
    ensures quiet { OnOk result (output.new ≡ output.old) }
    ensures told { IfErr result (λ back. (line : List ℕ)
        × IsOpeningFault S.Store (Ok settings) (connection_of S.Store store)
        (connection_of S.Store back.1) line (code_of back.0)
        × Prints W.contents output.old output.new line) }
{
    let mut store = store;
    match store.create_schema(alloc) {
        Ok(()) => attach(alloc, store, settings, output),
        Err(fault) => {
            drop(settings);
            put_store_fault(output, fault);
            Err((Status::Failed, store))
        }
    }
}

/// Attaches the settings to the tables.
fn attach<S: Backend, W: Write>(
    alloc: Global,
    store: Store<S>,
    settings: Settings,
    output: &mut CountedWriter<'_, W>,
) -> Result<Desk<S>, (Status, Store<S>)>
    ensures same_writer { HaveOneWriter output.new output.old }
    ensures attached { IfOk result (IsAttached S.Store settings (state_of S.Store store)) }
    ensures quiet { OnOk result (output.new ≡ output.old) }
    ensures told { IfErr result (λ back. (fault : AttachFault)
        × FailsToAttach settings (state_of S.Store store) (state_of S.Store back.1) fault
        × (code_of back.0 ≡ 4) × Prints W.contents output.old output.new (attach_fault_text fault)) }
{
    match Desk::attach(alloc, store, settings) {
        Ok(desk) => Ok(desk),
        Err((fault, store)) => {
            put_attach_fault(output, fault);
            Err((Status::Failed, store))
        }
    }
}
