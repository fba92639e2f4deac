//! Whether what links give may be of a type.
ghost use Rattle.std.specs.Prelude.{◌≡◌, [], ◌∷◌, IfOk, None, map};
ghost use Rattle.std.specs.List.{flat_map, list_any};
ghost use Rattle.cwl_types.specs.Types.{array_of};
ghost use Rattle.cwl_types.specs.declared.types.MemberType.TheVariants.{Plain};
ghost use Rattle.cwl_types.specs.declared.types.PlainType.TheVariants.{Null};
ghost use Rattle.type_check.specs.Levels.{members_at};
ghost use Rattle.type_check.specs.Overlaps.{has_lists, members_overlap, overlaps};
ghost use Rattle.workflow_check.specs.Links.{may_carry};
ghost use Rattle.workflow_check.specs.Scope.{file_type, gift};
ghost use Rattle.workflow_check.specs.Types.{base, form_of, gift_type, in_arrays, kept_type, opened_type, part, part_of};
ghost use Rattle.workflow_check.specs.inner.Seen.{around, gift_seen, sink_seen};

use crate::scope::{Given, Scope, is_null, source_given};
use cwl_process::{Links, Merge, Pick, Source};
use cwl_types::{MemberType, PlainType};
use plain_data::Items;
use std::alloc::{AllocError, Global};
use type_check::{Level, Levels};

/// What merging and picking make of the types of sources.
#[derive(Clone, Copy, Drop)]
pub(crate) struct Form {
    /// The result is a list.
    pub in_array: bool,
    /// In place of an array come its items.
    pub opened: bool,
    /// Null is left out.
    pub without_null: bool,
}

/// What becomes of the sources' types.
pub(crate) fn form_of(merge: Option<Merge>, pick: Option<Pick>, is_one: bool) -> Form
    ensures { result ≡ form_of merge pick is_one }
{
    let flattened = matches!(merge, Some(Merge::Flattened));
    let listed = merge.is_some() || !is_one;
    match pick {
        None => Form {
            in_array: listed,
            opened: flattened,
            without_null: false,
        },
        Some(method) => Form {
            in_array: matches!(method, Pick::AllNonNull),
            opened: flattened || !listed,
            without_null: true,
        },
    }
}

/// What links give a value to: a type, or where it is scattered a list of it.
#[derive(Clone, Copy, Drop)]
struct Sink<'l, 'p> {
    scattered: bool,
    kind: Level<'l, 'p>,
}

/// Whether what the links give may be what is asked for, where each of the sources is there.
///
/// Parts the type that is asked for into its levels, so that no source's members are compared with each of its members.
pub(crate) fn links_overlap(
    alloc: Global,
    scope: Scope<'_, '_>,
    links: &Links,
    sources: &[Source],
    scattered: bool,
    kind: &Items<MemberType>,
) -> Result<bool, AllocError>
    requires { scope.file.now ≡ file_type }
    ensures { IfOk result (λ overlap. overlap
        ≡ may_carry (around scope.entry) links.now sources.now scattered kind.now) }
{
    let levels = Levels::of(alloc, kind)?;
    let sink = Sink {
        scattered,
        kind: levels.first(),
    };
    let overlap = sources_overlap(scope, links, sources, sink);
    drop(levels);
    Ok(overlap)
}

fn sources_overlap(
    scope: Scope<'_, '_>,
    links: &Links,
    sources: &[Source],
    sink: Sink<'_, '_>,
) -> bool
    requires { scope.file.now ≡ file_type }
    ensures { result ≡ may_carry (around scope.entry) links.now sources.now sink.entry.scattered
        (members_at sink.entry.kind) }
{
    let form = form_of(links.merge, links.pick, sources.len() == 1);
    if form.in_array {
        if sink.scattered {
            let items = Sink {
                scattered: false,
                kind: sink.kind,
            };
            return union_overlaps(scope, sources, form, items);
        }
        return list_overlaps(scope, sources, form, sink.kind);
    }
    union_overlaps(scope, sources, form, sink)
}

/// Whether what one of the sources gives may be of the type.
fn union_overlaps(scope: Scope<'_, '_>, sources: &[Source], form: Form, sink: Sink<'_, '_>) -> bool
    requires { scope.file.now ≡ file_type }
    ensures { result ≡ list_any (λ source. overlaps
        (part_of form (gift scope.entry.inputs.now scope.entry.steps.now source))
        (sink_seen sink.entry)) sources.now }
{
    sources
        .iter()
        .any(|source| source_overlaps(scope, source, form, sink))
}

fn source_overlaps(scope: Scope<'_, '_>, source: &Source, form: Form, sink: Sink<'_, '_>) -> bool
    requires { scope.file.now ≡ file_type }
    ensures { result ≡ overlaps
        (part_of form (gift scope.entry.inputs.now scope.entry.steps.now source.now))
        (sink_seen sink.entry) }
{
    match source_given(scope, source) {
        None => false,
        Some(given) => given_overlaps(given, form, sink),
    }
}

/// Whether a list of what the sources give may be of the type.
fn list_overlaps(scope: Scope<'_, '_>, sources: &[Source], form: Form, kind: Level<'_, '_>) -> bool
    requires { scope.file.now ≡ file_type }
    ensures { result ≡ list_any (members_overlap (array_of (flat_map (part_of form)
        (map (gift scope.entry.inputs.now scope.entry.steps.now) sources.now)) None))
        (members_at kind.entry) }
{
    if kind.has_lists() {
        return true;
    }
    let items = Sink {
        scattered: false,
        kind: kind.items(),
    };
    union_overlaps(scope, sources, form, items)
}

/// Whether what a source gives may be of the type.
fn given_overlaps(given: Given<'_>, form: Form, sink: Sink<'_, '_>) -> bool
    ensures { result ≡ overlaps (part form (gift_type (gift_seen given.entry)))
        (sink_seen sink.entry) }
{
    if given.arrays == 0 {
        return base_overlaps(given, form.opened, form.without_null, sink);
    }
    if form.opened {
        if given.arrays == 1 {
            return base_overlaps(given, false, form.without_null, sink);
        }
        return arrays_overlap(given.arrays - 1, given, sink);
    }
    arrays_overlap(given.arrays, given, sink)
}

/// Whether what is in so many arrays may be of the type.
fn arrays_overlap(arrays: usize, given: Given<'_>, sink: Sink<'_, '_>) -> bool
    ensures { result ≡ overlaps (in_arrays arrays (base (gift_seen given.entry)))
        (sink_seen sink.entry) }
{
    if arrays == 0 {
        return base_overlaps(given, false, false, sink);
    }
    if sink.scattered {
        let items = Sink {
            scattered: false,
            kind: sink.kind,
        };
        return arrays_overlap(arrays - 1, given, items);
    }
    if sink.kind.has_lists() {
        return true;
    }
    let items = Sink {
        scattered: false,
        kind: sink.kind.items(),
    };
    arrays_overlap(arrays - 1, given, items)
}

/// Whether what is in no array may be of the type.
fn base_overlaps(given: Given<'_>, opened: bool, without_null: bool, sink: Sink<'_, '_>) -> bool
    ensures { result ≡ overlaps (kept_type without_null
        (opened_type opened (base (gift_seen given.entry)))) (sink_seen sink.entry) }
{
    if given.or_null {
        if null_overlaps(opened, without_null, sink) {
            return true;
        }
        return some_part_overlaps(given.members, opened, without_null, sink);
    }
    some_part_overlaps(given.members, opened, without_null, sink)
}

fn null_overlaps(opened: bool, without_null: bool, sink: Sink<'_, '_>) -> bool
    ensures { result ≡ overlaps (kept_type without_null (opened_type opened (Plain Null ∷ [])))
        (sink_seen sink.entry) }
{
    let null = MemberType::Plain(PlainType::Null);
    part_overlaps(&null, opened, without_null, sink)
}

fn some_part_overlaps(
    members: &Items<MemberType>,
    opened: bool,
    without_null: bool,
    sink: Sink<'_, '_>,
) -> bool
    ensures { result ≡ list_any (λ member. overlaps (kept_type without_null
        (opened_type opened (member ∷ []))) (sink_seen sink.entry)) members.now }
{
    members
        .as_slice()
        .iter()
        .any(|member| part_overlaps(member, opened, without_null, sink))
}

fn part_overlaps(member: &MemberType, opened: bool, without_null: bool, sink: Sink<'_, '_>) -> bool
    ensures { result ≡ overlaps (kept_type without_null (opened_type opened (member.now ∷ [])))
        (sink_seen sink.entry) }
{
    if opened {
        return match member {
            MemberType::Array(array) => some_kept_overlaps(&array.items, without_null, sink),
            MemberType::Plain(_) => kept_overlaps(member, without_null, sink),
            MemberType::Enum(_) => kept_overlaps(member, without_null, sink),
        };
    }
    kept_overlaps(member, without_null, sink)
}

fn some_kept_overlaps(members: &Items<MemberType>, without_null: bool, sink: Sink<'_, '_>) -> bool
    ensures { result ≡ list_any (λ member. overlaps (kept_type without_null (member ∷ []))
        (sink_seen sink.entry)) members.now }
{
    members
        .as_slice()
        .iter()
        .any(|member| kept_overlaps(member, without_null, sink))
}

fn kept_overlaps(member: &MemberType, without_null: bool, sink: Sink<'_, '_>) -> bool
    ensures { result ≡ overlaps (kept_type without_null (member.now ∷ [])) (sink_seen sink.entry) }
{
    if without_null && is_null(member) {
        return false;
    }
    meets(member, sink)
}

fn meets(member: &MemberType, sink: Sink<'_, '_>) -> bool
    ensures { result ≡ overlaps (member.now ∷ []) (sink_seen sink.entry) }
{
    if sink.scattered {
        meets_list(member, sink.kind)
    } else {
        sink.kind.meets(member)
    }
}

/// Whether a member may be a list of such items.
fn meets_list(member: &MemberType, items: Level<'_, '_>) -> bool
    ensures { result ≡ members_overlap member.now (array_of (members_at items.entry) None) }
{
    match member {
        MemberType::Plain(kind) => is_any(*kind),
        MemberType::Array(array) => items.overlaps(&array.items),
        MemberType::Enum(_) => false,
    }
}

/// Whether a type by its name has lists.
fn is_any(kind: PlainType) -> bool
    ensures { result ≡ has_lists kind }
{
    matches!(kind, PlainType::Any)
}
