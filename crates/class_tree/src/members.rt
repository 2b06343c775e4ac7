//! An index of the members of a class, by name and descriptor.
ghost use Rattle.std.specs.Prelude.{◌≡◌, [], ◌∷◌, IfOk};
ghost use Rattle.std.specs.Cmp.Lexicographic.{slice_cmp};
ghost use Rattle.std.specs.Ordering.{is_lt, nat_cmp};
ghost use Rattle.class_tree.specs.Inner.MemberIndex.{IsMemberIndex, key_at};
ghost use Rattle.class_tree.specs.Names.{is_member};
ghost use Rattle.class_tree.specs.Inner.Nodes.{AreMemberIndexes};
ghost use Rattle.class_tree.specs.Order.{member_place, members_of};

use crate::headers::Headers;
use crate::lists::Lists;
use class_model::{Header, ListOf, Member, NoMemory};
use std::alloc::Global;
use std::cmp::Ordering;

/// Which members of a class are meant.
#[derive(Clone, Copy)]
pub enum MemberKind {
    Field,
    Method,
}

/// The fields or the methods that a class declares.
pub fn members_of(header: &Header, kind: MemberKind) -> &[Member]
    ensures { result.now ≡ members_of kind header.now }
{
    match kind {
        MemberKind::Field => header.fields.as_slice(),
        MemberKind::Method => header.methods.as_slice(),
    }
}

/// The indexes of the fields or the methods of each class, by number.
pub(crate) fn member_indexes(
    alloc: Global,
    headers: &Headers<'_>,
    kind: MemberKind,
) -> Result<Lists<usize>, NoMemory>
    ensures { IfOk result (λ indexes. AreMemberIndexes (members_of kind) headers.now indexes) }
{
    let mut indexes = Lists::new(alloc, headers.len())?;
    while let Some(header) = headers.get(indexes.len()) {
        indexes.push(member_index(alloc, members_of(header, kind))?.as_slice())?;
    }
    Ok(indexes)
}

// The index of these members.
fn member_index(alloc: Global, members: &[Member]) -> Result<ListOf<usize>, NoMemory>
    ensures { IfOk result (λ index. IsMemberIndex members.now index) }
{
    let mut places: Vec<usize> = (0..members.len()).collect(alloc)?;
    places.sort_by(|one, other| compare(members, *one, *other))?;
    Ok(ListOf::from_vec(places))
}

// How two places compare: by name, then by descriptor, then by place.
fn compare(members: &[Member], one: usize, other: usize) -> Ordering
    ensures { result
        ≡ slice_cmp (slice_cmp nat_cmp) (key_at members.now one) (key_at members.now other) }
{
    let (one_name, one_desc) = texts(members, one);
    let (other_name, other_desc) = texts(members, other);
    one_name
        .cmp(other_name)
        .then_with(|| one_desc.cmp(other_desc))
        .then(one.cmp(&other))
}

// The name and the descriptor of the member at a place.
fn texts(members: &[Member], place: usize) -> (&[u8], &[u8])
    ensures { key_at members.now place ≡ result.0.now ∷ result.1.now ∷ (place ∷ []) ∷ [] }
{
    match members.get(place) {
        Some(member) => (member.name.bytes(), member.desc.bytes()),
        None => (&[], &[]),
    }
}

/// The place of the first member of a name and descriptor.
pub(crate) fn find_member(
    members: &[Member],
    index: &[usize],
    name: &[u8],
    desc: &[u8],
) -> Option<usize>
    requires { IsMemberIndex members.now index.now }
    ensures { result ≡ member_place name.now desc.now members.now }
{
    let point = index.partition_point(|place| is_before(members, *place, name, desc));
    let place = *index.get(point)?;
    let member = members.get(place)?;
    is_member(member, name, desc).then_some(place)
}

// Whether a place stands before all that have this name and descriptor.
fn is_before(members: &[Member], place: usize, name: &[u8], desc: &[u8]) -> bool
    ensures { result
        ≡ is_lt
        (slice_cmp (slice_cmp nat_cmp) (key_at members.now place) (name.now ∷ desc.now ∷ [])) }
{
    let (own_name, own_desc) = texts(members, place);
    own_name.cmp(name).then_with(|| own_desc.cmp(desc)).is_lt()
}

// Whether the member has this name and descriptor.
fn is_member(member: &Member, name: &[u8], desc: &[u8]) -> bool
    ensures { result ≡ is_member name.now desc.now member.now }
{
    name == member.name.bytes() && desc == member.desc.bytes()
}
