//! What follows from the definitions.
ghost use Rattle.std.specs.Prelude.{◌≡◌, ◌⊎◌, ℕ, List, None, Ok, Err};
ghost use Rattle.serde_json.specs.Data.{Data};
ghost use Rattle.document_table.specs.Entries.{IsProcess};
ghost use Rattle.document_table.specs.Packed.{root_of};
ghost use Rattle.cwl_process.specs.Acting.{nothing_asked};
ghost use Rattle.cwl_process.specs.declared.tool.Asked.{Asked};
ghost use Rattle.url.specs.Parts.{Parts};
ghost use Rattle.document_links.specs.Absent.{LacksItem, NamesAbsent};
ghost use Rattle.document_links.specs.Documents.{IsLinked, IsNeeded, IsNotNeeding, IsRefused, bounded, bounded_by};
ghost use Rattle.document_links.specs.Homes.{Home, home};
ghost use Rattle.document_links.specs.declared.bounds.TheConstants.{MOST_PROCESSES, MOST_WORKFLOWS};
ghost use Rattle.document_links.specs.LeadsTo.{Lacks, LeadsTo};
ghost use Rattle.document_links.specs.Library.{Documents, Finds};
ghost use Rattle.document_links.specs.Linked.{linked};
ghost use Rattle.document_links.specs.Names.{alone};
ghost use Rattle.document_links.specs.ProcessOf.{AllAreProcesses, IsItsProcess, IsProcessOf};
ghost use Rattle.document_links.specs.declared.bounds.TheConstants.{MOST_WORKFLOWS};
ghost use Rattle.document_links.specs.declared.fault.LinkError.TheVariants.{Refused};
ghost use Rattle.document_links.specs.declared.fault.LinkFault.{LinkFault};
ghost use Rattle.document_links.specs.declared.fault.LinkFault.TheVariants.{NoItem, NotLoaded, TooDeep, TooMany};
ghost use Rattle.document_links.specs.declared.process.Process.{Process};

/// Within the bounds, what the two walks put together is the process of the document: nothing in it is in the place of
/// something that is missing.
pub fn what_is_linked_is_the_process()
    ensures walked { (find : Finds) (base : Parts) (d : Data) (n : ℕ) → AllAreProcesses find
        → IsProcess (root_of d).process → bounded find base d ≡ Ok n
        → IsProcessOf find (home base d) nothing_asked (root_of d).process
        (linked find MOST_WORKFLOWS (home base d) nothing_asked (root_of d).process) }
    ensures read { (bytes : List ℕ) (base : Parts) (docs : Documents) (process : Process)
        → IsLinked bytes base docs process → IsItsProcess bytes base docs process }
{}

/// A document has one process at most, where the others are the same.
pub fn a_document_has_one_process()
    ensures { (find : Finds) (h : Home) (around : Asked) (d : Data) (p q : Process)
        → IsProcessOf find h around d p → IsProcessOf find h around d q → p ≡ q }
{}

/// What has a process is refused by the bounds alone: it is C9.
pub fn only_bounds_refuse_a_process()
    ensures { (find : Finds) (base : Parts) (d : Data) (p : Process) (fault : LinkFault)
        → IsProcessOf find (home base d) nothing_asked (root_of d).process p
        → bounded find base d ≡ Err fault
        → (fault ≡ TooDeep) ⊎ (fault ≡ TooMany) }
{}

/// C10 is told of a URL only where it is not there and the document leads to it: `needed_docs` gives it, of the document or of one
/// that it leads to.
pub fn only_what_is_named_is_missing()
    ensures walked { (find : Finds) (base : Parts) (d : Data) (url : List ℕ)
        → bounded find base d ≡ Err (NotLoaded url) → (find url ≡ None) × LeadsTo find base d url }
    ensures read { (bytes : List ℕ) (base : Parts) (docs : Documents) (url : List ℕ)
        → IsRefused (Refused (NotLoaded url)) bytes base docs → Lacks bytes base docs url }
{}

/// C10 is told of the name of an item only where a step has that name and its document has no such item: a step of the process, or of one
/// that its steps lead to.
pub fn only_items_that_steps_name_are_missing()
    ensures walked { (find : Finds) (base : Parts) (d : Data) (id : List ℕ)
        → bounded find base d ≡ Err (NoItem id)
        → NamesAbsent find (home base d) (root_of d).process id }
    ensures read { (bytes : List ℕ) (base : Parts) (docs : Documents) (id : List ℕ)
        → IsRefused (Refused (NoItem id)) bytes base docs → LacksItem bytes base docs id }
{}

/// What `read_process` takes, `needed_docs` takes.
pub fn what_is_linked_needs_documents()
    ensures walked { (find : Finds) (base : Parts) (d : Data) (n : ℕ) → bounded find base d ≡ Ok n
        → (m : ℕ) × (bounded_by alone base d ≡ Ok m) }
    ensures read { (bytes : List ℕ) (base : Parts) (docs : Documents) (process : Process)
        → IsLinked bytes base docs process → (urls : List (List ℕ)) × IsNeeded bytes base urls }
{}

/// `needed_docs` never refuses with C10: neither a document nor an item is missing for it.
pub fn nothing_is_missing_for_needed_documents()
    ensures document { (bytes : List ℕ) (base : Parts) (url : List ℕ)
        → IsNotNeeding (Refused (NotLoaded url)) bytes base → ⊥ }
    ensures item { (bytes : List ℕ) (base : Parts) (id : List ℕ)
        → IsNotNeeding (Refused (NoItem id)) bytes base → ⊥ }
{}

/// At most 16 workflows are inside one another, and a document comes to at most 4,096 processes.
pub fn processes_are_limited()
    ensures { (MOST_WORKFLOWS ≡ 16) × (MOST_PROCESSES ≡ 4096) }
{}
