// The kernel: its databases, and what it answers to commands.
ghost use Rattle.std.specs.Prelude.{◌≡◌, ◌<◌, ◌^◌, ◌++◌, ◌∷◌, [], ℕ, Bool, List, None, IfOk, true, false, map, length, codes, OnOk, OnErr, IfSome, IfNone};
ghost use Rattle.std.specs.List.{position};
ghost use Rattle.std.specs.Option.{option_map};
ghost use Rattle.std.specs.Str.{bytes_eq};
ghost use Rattle.outer_io.specs.Files.{FilesSeen};
ghost use Rattle.tree_model.specs.Printed.{list_text};
ghost use Rattle.tree_model.specs.Printed as printed;
ghost use Rattle.tree_model.specs.Labels.{with_path};
ghost use Rattle.tree_model.specs.States.{State, Base, is_base_name, without_name, with_new};
ghost use Rattle.tree_model.specs.Sound.{are_distinct};
ghost use Rattle.doc_import.specs.Imported.{built_forest};
ghost use Rattle.doc_store.specs.Stored.{Stored, base_of};
ghost use Rattle.commands.specs.CommandView.{form_of_command, input_of, input_of_document};
ghost use Rattle.commands.specs.Commands.{table, create, storage, list, query, export};
ghost use Rattle.kernel_session.specs.Databases.{AreKept, AreWhole, IsRead};
ghost use Rattle.kernel_session.specs.Replies.{accepted, refused, IsText};
ghost use Rattle.kernel_session.specs.ReplyView.{answer_of};
ghost use Rattle.kernel_session.specs.Exports.{IsWrittenReply};
ghost use Rattle.kernel_session.specs.Steps.{Step, open_base};
ghost use Rattle.kernel_session.specs.Workspaces.{Workspace, workspace, state_of};

use crate::answers::{document_place, push_answer, push_list, push_node, push_storage};
use crate::content::read_document;
use crate::create::{database_of, is_base_name, new_database};
use crate::reply::Reply;
use commands::{Command, DocumentInput, DocumentPath, FileName, Input, Number, Options};
use doc_import::Built;
use doc_store::Database;
use frame_pool::Meter;
use outer_io::{FileWrite, Files};
use query_paths::read_query;
use std::alloc::{AllocError, Global};
use std::marker::Model;
use tree_model::{Code, Refusal, Text};

/// There are fewer databases than this.
const MAX_DATABASES: usize = 1 << 32;

/// The databases of a session, and which is open. Contracts see the databases as they are stored; `state_of` is what they
/// stand for.
#[derive(Drop)]
pub struct Kernel {
    databases: Vec<Database>,
    opened: Option<u32>,
}

impl Model for Kernel {
    ghost use Rattle.std.specs.Prelude.{map};
    ghost use Rattle.doc_store.specs.Stored.{base_of};
    ghost use Rattle.kernel_session.specs.Databases.{AreKept, AreWhole};
    ghost use Rattle.kernel_session.specs.Workspaces.{KernelView};

    ghost Value = { KernelView };

    ghost view = { λ k. record { stored = k.databases.items; opened = k.opened } };

    ghost invariant = { λ k. AreKept (map base_of k.databases.items) k.opened × AreWhole k.databases.items };
}

fn is_named(database: &Database, name: &str) -> bool
    ensures { result ≡ bytes_eq database.now.name name.now }
{
    database.name().as_str() == name
}

fn place_of(databases: &[Database], name: &str) -> Option<usize>
    ensures { result ≡ position (λ (d : Stored). bytes_eq d.name name.now) databases.now }
{
    databases
        .iter()
        .position(|database| is_named(database, name))
}

// Puts a database behind the others, and drops the one of its name that was there.
fn put(databases: &mut Vec<Database>, database: Database) -> Result<(), AllocError>
    requires distinct { are_distinct (map (λ (base : Base). base.name) (map base_of databases.old.items)) ≡ true }
    requires whole { AreWhole databases.old.items }
    requires own { database.branched ≡ false }
    ensures put { OnOk result (map base_of databases.new.items ≡ without_name database.name (map base_of databases.old.items) ++ base_of database ∷ []) }
    ensures whole { OnOk result (AreWhole databases.new.items) }
    ensures few { OnOk result (length databases.new.items < 2 ^ 32) }
    ensures err { OnErr result (databases.new.items ≡ databases.old.items) }
{
    if databases.len() + 1 >= MAX_DATABASES {
        return Err(AllocError);
    }
    let place = place_of(databases.as_slice(), database.name().as_str());
    databases.push(database)?;
    let Some(place) = place else {
        return Ok(());
    };
    databases.remove(place);
    Ok(())
}

// What was written, or that memory was wanting.
fn text_reply(text: Vec<u8>, written: Result<(), AllocError>) -> Reply
    ensures ok { OnOk written (answer_of result ≡ accepted text.items) }
    ensures err { OnErr written (answer_of result ≡ refused (codes "XKMEM")) }
{
    match written {
        Ok(()) => Reply::Ok(text),
        Err(_e) => Reply::Err(Refusal::NoMemory),
    }
}

// The text of all rows of a document under the path `table`.
fn rows_text(alloc: Global, built: &Built, meter: &mut Meter) -> Result<Vec<u8>, AllocError>
    requires read { (xml : List ℕ) × (strip : Bool) × IsRead xml strip built.now }
    ensures text { IfOk result (λ text. text.items ≡ printed.rows_text (with_path (codes "table") (built_forest built.now))) }
    ensures meter { meter.new ≡ meter.old }
{
    let name = Text::of(alloc, "table")?;
    let database = database_of(alloc, &name, &name, built, meter)?;
    let mut text = Vec::new(alloc);
    push_storage(&database, &None, &mut text)?;
    Ok(text)
}

// A text, or that memory was wanting.
fn made_reply(text: Result<Vec<u8>, AllocError>) -> Reply
    ensures ok { IfOk text (λ made. answer_of result ≡ accepted made.items) }
    ensures err { OnErr text (answer_of result ≡ refused (codes "XKMEM")) }
{
    match text {
        Ok(text) => Reply::Ok(text),
        Err(_e) => Reply::Err(Refusal::NoMemory),
    }
}

// All rows of a document under the path `table`.
fn rows_reply(alloc: Global, built: &Built, meter: &mut Meter) -> Reply
    requires read { (xml : List ℕ) × (strip : Bool) × IsRead xml strip built.now }
    ensures text { IsText (printed.rows_text (with_path (codes "table") (built_forest built.now))) (answer_of result) }
    ensures meter { meter.new ≡ meter.old }
{
    made_reply(rows_text(alloc, built, meter))
}

// The reply to TABLE.
fn table_reply<F: Files>(
    alloc: Global,
    input: &Input<'_>,
    files: &mut F,
    options: Options,
    meter: &mut Meter,
) -> Reply
    ensures { (state : State) → Step options (workspace state (F.seen files.old) meter.old) (table (input_of input.now)) (answer_of result)
        (workspace state (F.seen files.new) meter.new) }
{
    match read_document(alloc, input, options.strip, files) {
        Ok(built) => rows_reply(alloc, &built, meter),
        Err(refusal) => Reply::Err(refusal),
    }
}

// The reply to EXPORT, once the document was printed.
fn written_reply<F: Files>(alloc: Global, name: &str, text: &[u8], files: &mut F) -> Reply
    ensures { IsWrittenReply name.now text.now (F.seen files.old) (F.seen files.new) (answer_of result) }
{
    match files.write(name, text) {
        FileWrite::Done => Reply::Ok(Vec::new(alloc)),
        FileWrite::Failed => Reply::Err(Refusal::Code(Code::XKFI0002)),
        FileWrite::NoMemory => Reply::Err(Refusal::NoMemory),
    }
}

impl Kernel {
    /// A kernel with no database. Takes no memory.
    pub fn new(alloc: Global) -> Kernel
        ensures { result ≡ record { stored = []; opened = None } }
    {
        Kernel {
            databases: Vec::new(alloc),
            opened: None,
        }
    }

    /// A kernel with these databases, in this order, and this one open. Takes no memory.
    pub fn of(databases: Vec<Database>, opened: Option<u32>) -> Kernel
        requires kept { AreKept (map base_of databases.items) opened }
        requires whole { AreWhole databases.items }
        ensures { result ≡ record { stored = databases.items; opened = opened } }
    {
        Kernel { databases, opened }
    }

    /// The databases, in order of making. Of none a branch is out.
    pub fn databases(&self) -> &[Database]
        ensures stored { result.now ≡ self.now.stored }
        ensures whole { AreWhole result.now }
    {
        self.databases.as_slice()
    }

    /// The place of the open database among them.
    pub fn open(&self) -> Option<u32>
        ensures { result ≡ self.now.opened }
    {
        self.opened
    }

    // The open database.
    fn database(&self) -> Option<&Database>
        ensures { option_map (λ database. base_of database.now) result ≡ open_base (state_of self.now) }
    {
        let place = self.opened?;
        Some(&self.databases[place as usize])
    }

    // The reply to INFO STORAGE.
    fn storage_reply(&self, alloc: Global, range: &Option<(Number, Number)>) -> Reply
        ensures { (options : Options) (w : Workspace) → w.state ≡ state_of self.now → Step options w (storage range.now) (answer_of result) w }
    {
        let Some(database) = self.database() else {
            return Reply::Err(Refusal::Code(Code::XKDB0001));
        };
        let mut text = Vec::new(alloc);
        let written = push_storage(database, range, &mut text);
        text_reply(text, written)
    }

    // The reply to LIST.
    fn list_reply(&self, alloc: Global) -> Reply
        ensures { IsText (list_text (state_of self.now).bases) (answer_of result) }
    {
        let mut text = Vec::new(alloc);
        let written = push_list(self.databases.as_slice(), &mut text);
        text_reply(text, written)
    }

    // The reply to XQUERY.
    fn query_reply(&self, alloc: Global, words: &str, meter: &mut Meter) -> Reply
        ensures { (options : Options) (files : FilesSeen) → Step options (workspace (state_of self.now) files meter.old) (query words.now) (answer_of result)
            (workspace (state_of self.now) files meter.new) }
    {
        let steps = match read_query(alloc, words) {
            Ok(steps) => steps,
            Err(fault) => return Reply::Err(fault),
        };
        let Some(database) = self.database() else {
            return Reply::Err(Refusal::Code(Code::XPDY0002));
        };
        let mut text = Vec::new(alloc);
        let written = push_answer(alloc, database, &steps, &mut text, meter);
        text_reply(text, written)
    }

    // The reply to EXPORT.
    fn export_reply<F: Files>(
        &self,
        alloc: Global,
        path: &DocumentPath<'_>,
        file: &FileName<'_>,
        files: &mut F,
    ) -> Reply
        ensures { (options : Options) (meter : Meter) → Step options (workspace (state_of self.now) (F.seen files.old) meter) (export path.now file.now) (answer_of result)
            (workspace (state_of self.now) (F.seen files.new) meter) }
    {
        let Some(database) = self.database() else {
            return Reply::Err(Refusal::Code(Code::XKDB0001));
        };
        let Some(place) = document_place(database, path.text()) else {
            return Reply::Err(Refusal::Code(Code::XKDB0004));
        };
        let mut text = Vec::new(alloc);
        match push_node(database, place, &mut text) {
            Ok(()) => written_reply(alloc, file.name(), &text, files),
            Err(_e) => Reply::Err(Refusal::NoMemory),
        }
    }

    // Puts a database behind the others, drops the one of its name that was there, and opens it.
    fn add(&mut self, database: Database) -> Result<(), AllocError>
        requires own { database.branched ≡ false }
        requires name { is_base_name database.name ≡ true }
        ensures ok { OnOk result (state_of self.new ≡ with_new (base_of database) (state_of self.old)) }
        ensures err { OnErr result (self.new ≡ self.old) }
    {
        put(&mut self.databases, database)?;
        self.opened = Some(self.databases.len() as u32 - 1);
        Ok(())
    }

    // The reply to CREATE DB.
    fn create<F: Files>(
        &mut self,
        alloc: Global,
        name: &str,
        document: &Option<DocumentInput<'_>>,
        files: &mut F,
        options: Options,
        meter: &mut Meter,
    ) -> Reply
        ensures { Step options (workspace (state_of self.old) (F.seen files.old) meter.old) (create name.now (option_map input_of_document document.now)) (answer_of result)
            (workspace (state_of self.new) (F.seen files.new) meter.new) }
    {
        if !is_base_name(name) {
            return Reply::Err(Refusal::Code(Code::XKDB0003));
        }
        let database = match new_database(alloc, name, document, options.strip, files, meter) {
            Ok(database) => database,
            Err(refusal) => return Reply::Err(refusal),
        };
        let added = self.add(database);
        text_reply(Vec::new(alloc), added)
    }

    /// The reply to a command. A refused command leaves all databases as they were, and all files but for the bytes of the one
    /// that it failed to write. Only a query reads rows by the meter.
    pub fn execute<F: Files>(
        &mut self,
        alloc: Global,
        command: &Command<'_>,
        files: &mut F,
        options: Options,
        meter: &mut Meter,
    ) -> Reply
        ensures { Step options (workspace (state_of self.old) (F.seen files.old) meter.old) (form_of_command command.now) (answer_of result)
            (workspace (state_of self.new) (F.seen files.new) meter.new) }
    {
        match command {
            Command::Table(input) => table_reply(alloc, input, files, options, meter),
            Command::CreateDb { name, document } => {
                self.create(alloc, name, document, files, options, meter)
            }
            Command::InfoStorage(range) => self.storage_reply(alloc, range),
            Command::List => self.list_reply(alloc),
            Command::Query(words) => self.query_reply(alloc, words.text(), meter),
            Command::Export { path, file } => self.export_reply(alloc, path, file, files),
            Command::Exit => Reply::Ok(Vec::new(alloc)),
            Command::NotBuilt => Reply::Err(Refusal::Code(Code::XKCM0002)),
        }
    }
}
