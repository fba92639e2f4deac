//! Options of another runner, and what does the same here.
ghost use Rattle.std.specs.Prelude.{◌≡◌, ◌==◌, bytes_eq, map, option_map};
ghost use Rattle.std.specs.List.{before_first, list_any};
ghost use Rattle.given_words.specs.Others as spec;

// Options of `cwltool`, and what does here what they ask for.
pub(crate) struct Other {
    options: &'static [&'static str],
    answer: &'static str,
}

static OTHERS: [Other; 13] = [
    Other {
        options: &[
            "--no-container",
            "--singularity",
            "--podman",
            "--udocker",
            "--docker",
            "--default-container",
            "--force-docker-pull",
            "--disable-pull",
            "--no-match-user",
            "--no-read-only",
            "--user-space-docker-cmd",
        ],
        answer: "no containers are run: tools are taken from PATH, so leave it out",
    },
    Other {
        options: &["--cachedir"],
        answer: "`--cache DIR` keeps what jobs give",
    },
    Other {
        options: &["--debug", "--timestamps"],
        answer: "`--verbose` says when each job starts and ends, and shows its messages",
    },
    Other {
        options: &["--tmpdir-prefix", "--tmp-outdir-prefix", "--basedir"],
        answer: "`--work DIR` is the folder for the jobs",
    },
    Other {
        options: &["--leave-tmpdir", "--leave-outputs", "--leave-container"],
        answer: "`--keep` leaves the work folder, `--keep-failed` after a failure alone",
    },
    Other {
        options: &["--rm-tmpdir", "--rm-container", "--move-outputs"],
        answer: "the work folder is removed at the end, and outputs are moved: leave it out",
    },
    Other {
        options: &["--make-template"],
        answer: "`--template` prints an input object to fill in",
    },
    Other {
        options: &["--print-dot"],
        answer: "`deparohi plan --dot` prints a picture of the plan",
    },
    Other {
        options: &["--no-warnings"],
        answer: "`--quiet` says no more than what came of it",
    },
    Other {
        options: &[
            "--enable-dev",
            "--enable-ext",
            "--strict",
            "--non-strict",
            "--relax-path-checks",
        ],
        answer: "a document is read by CWL v1.2 alone: leave it out",
    },
    Other {
        options: &["--js-console", "--eval-timeout", "--js"],
        answer: "JavaScript is not evaluated",
    },
    Other {
        options: &["--preserve-environment", "--preserve-entire-environment"],
        answer: "a tool gets HOME, TMPDIR, PATH and what its EnvVarRequirement names",
    },
    Other {
        options: &["--on-error"],
        answer: "a run ends at the first job that fails, as with `stop`",
    },
];

#[tactic(auto, unfolding(crate::specs::Others::entries))]
fn others() -> &'static [Other]
    ensures { map spec.entry_of result.now ≡ spec.entries }
{
    &OTHERS
}

/// Returns what does here what this option asks of `cwltool`, if it is no option of this program.
pub fn answer_to(option: &str) -> Option<&'static str>
    ensures { option_map (λ answer. answer.now) result ≡ spec.answer_to option.now }
{
    match others().iter().find(|other| has_option(other, option)) {
        None => None,
        Some(other) => Some(other.answer),
    }
}

fn has_option(other: &Other, option: &str) -> bool
    ensures { result ≡ list_any (bytes_eq option.now)
        (map (λ name. name.now) other.now.options.now) }
{
    other.options.iter().any(|name| option == *name)
}

/// The option that a word names: what is before an equals sign.
pub fn option_in(word: &str) -> &str
    ensures { result.now ≡ before_first (λ b. b == 61) word.now }
{
    match word.split_once('=') {
        None => word,
        Some((name, _)) => name,
    }
}
