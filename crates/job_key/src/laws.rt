//! What keys tell apart: each law is the contract of a function that does nothing.
ghost use Rattle.job_key.specs.Laws.{KeysTellJobsApart};
ghost use Rattle.job_key.specs.Read.{DocumentsAreWritten, ReadToolsAreWritten};

/// Equal keys come only from equal tools, environments and inputs, places apart.
pub fn keys_tell_jobs_apart()
    ensures { KeysTellJobsApart }
{}

/// Each tool of a document that was read was written as JSON whose numbers are whole, so its keys tell it.
pub fn read_tools_are_written()
    ensures document { DocumentsAreWritten }
    ensures anywhere { ReadToolsAreWritten }
{}
