// The members of a type.
ghost use Rattle.std.specs.Prelude.{◌≡◌, IfOk, OnOk};
ghost use Rattle.apt_base.specs.Limits.{max_type_steps};
ghost use Rattle.type_elements.specs.MemberElements as elements;
ghost use Rattle.type_listing.specs.Displacing.{is_displaced_in, is_yes};
ghost use Rattle.type_listing.specs.Members as members;
ghost use Rattle.type_listing.specs.Listings.{listing_of, IsDue, AreDue};
ghost use Rattle.type_listing.specs.Remembered.{AreKnownWithin};
ghost use Rattle.type_overriding.specs.Methods.{container_of};

use crate::displacing::{displaces, is_inherited};
use crate::known::KnownMembers;
use crate::listing::Listing;
use crate::remembered::Remembered;
use apt_base::{ElementRef, List, MAX_TYPE_STEPS, NoMemory};
use call_effort::Effort;
use element_table::Table;
use std::alloc::Global;
use type_elements::{class_elements, enclosed};
use type_levels::Answer;
use type_overriding::{Methods, effort_of_comparisons};

// How many elements are compared in a step, and how many steps an own member takes, one of a supertype, and one that may displace another.
const SEEN_IN_A_STEP: usize = 16;

const OF_OWN: usize = 2;

const OF_INHERITED: usize = 4;

const OF_PAIR: usize = 2;

// ---- one member

// Whether a member is in the list: those of its name are compared alone.
fn is_among(list: &Listing<'_>, at: &ElementRef, effort: &mut Effort) -> Result<bool, NoMemory>
    ensures { IfOk result (λ r. r ≡ members.is_among list.now.list at.now) }
{
    let places = list.places(at)?;
    effort.take(places.len() / SEEN_IN_A_STEP)?;
    for place in places {
        if at.is_equal(list.get(*place)) {
            return Ok(true);
        }
    }
    Ok(false)
}

fn is_yes(answer: Answer) -> bool
    ensures { result ≡ is_yes answer }
{
    match answer {
        Answer::Yes => true,
        Answer::Open => false,
        Answer::No => false,
    }
}

// Whether one of the list hides or overrides a member in the type of these methods: those of its name are asked alone, up to the first one that does.
fn is_displaced(
    methods: &mut Methods<'_, '_>,
    list: &Listing<'_>,
    at: &ElementRef,
    effort: &mut Effort,
) -> Result<Answer, NoMemory>
    requires { methods.old.table ≡ list.now.table }
    ensures answer { IfOk result (λ r. r ≡ is_displaced_in list.now.table methods.old list.now.list at.now) }
    ensures kept { methods.new ≡ methods.old }
{
    let places = list.places(at)?;
    let mut answer = Answer::No;
    for place in places {
        effort.take(OF_PAIR)?;
        let one = displaces(list.table(), methods, list.get(*place), at, effort)?;
        if is_yes(one) {
            return Ok(Answer::Yes);
        }
        answer = answer.or(one);
    }
    Ok(answer)
}

// Adds a member of a supertype, unless it is there, is not inherited, or one that is there hides or overrides it. False where the steps do not suffice to decide that, and the list is then as it was.
fn add_inherited(
    alloc: Global,
    methods: &mut Methods<'_, '_>,
    within: &ElementRef,
    list: &mut Listing<'_>,
    at: &ElementRef,
    effort: &mut Effort,
) -> Result<bool, NoMemory>
    requires { methods.old ≡ container_of list.old.table within.now }
    ensures due { IfOk result (λ closed. IsDue closed list.old within.now at.now list.new.list) }
    ensures table { OnOk result (list.new.table ≡ list.old.table) }
    ensures kept { methods.new ≡ methods.old }
{
    effort.take(OF_INHERITED)?;
    if !is_inherited(list.table(), within, at) {
        return Ok(true);
    }
    if is_among(list, at, effort)? {
        return Ok(true);
    }
    match is_displaced(methods, list, at, effort)? {
        Answer::Yes => Ok(true),
        Answer::Open => Ok(false),
        Answer::No => {
            let copy = at.copy(alloc)?;
            list.push(copy)?;
            Ok(true)
        }
    }
}

// ---- those of a type

// Adds each of these members that the list has to have, in their order. False where the steps do not suffice to
// decide for one of them.
fn add_all(
    alloc: Global,
    methods: &mut Methods<'_, '_>,
    within: &ElementRef,
    list: &mut Listing<'_>,
    others: &[ElementRef],
    effort: &mut Effort,
) -> Result<bool, NoMemory>
    requires { methods.old ≡ container_of list.old.table within.now }
    ensures due { IfOk result (λ closed. AreDue closed list.old within.now others.now list.new.list) }
    ensures table { OnOk result (list.new.table ≡ list.old.table) }
    ensures kept { methods.new ≡ methods.old }
{
    for each in others {
        if !add_inherited(alloc, methods, within, list, each, effort)? {
            return Ok(false);
        }
    }
    Ok(true)
}

// The same, where methods take part in what is remembered over the table.
fn add_above<'a>(
    alloc: Global,
    remembered: &mut Remembered<'a>,
    methods: &mut Methods<'a, '_>,
    within: &ElementRef,
    list: &mut Listing<'_>,
    others: &[ElementRef],
    effort: &mut Effort,
) -> Result<bool, NoMemory>
    requires methods { methods.old ≡ container_of list.old.table within.now }
    requires remembered { remembered.old ≡ list.old.table }
    ensures due { IfOk result (λ closed. AreDue closed list.old within.now others.now list.new.list) }
    ensures table { OnOk result (list.new.table ≡ list.old.table) }
    ensures kept { methods.new ≡ methods.old }
    ensures remembered { remembered.new ≡ remembered.old }
{
    let own = methods.exchange(remembered.take_resolver());
    let closed = add_all(alloc, methods, within, list, others, effort)?;
    remembered.keep_resolver(methods.exchange(own));
    Ok(closed)
}

// The own members.
fn own_listing<'a>(
    alloc: Global,
    table: &'a Table,
    at: &ElementRef,
    effort: &mut Effort,
) -> Result<Listing<'a>, NoMemory>
    ensures { IfOk result (λ list. list ≡ listing_of table.now (elements.enclosed table.now at.now)) }
{
    let mut list = Listing::new(alloc, table);
    let own = enclosed(alloc, table, at)?;
    for each in own.into_vec() {
        effort.take(OF_OWN)?;
        list.push(each)?;
    }
    Ok(list)
}

// The superclass and the interfaces that are of the table.
fn super_elements(
    alloc: Global,
    remembered: &mut Remembered<'_>,
    at: &ElementRef,
) -> Result<List<ElementRef>, NoMemory>
    ensures value { IfOk result (λ list. list ≡ members.super_elements remembered.old at.now) }
    ensures kept { remembered.new ≡ remembered.old }
{
    let types = remembered.header_types(at)?;
    class_elements(alloc, types.as_slice())
}

// ---- a type, with the levels that are left

// What is known of the members of a type within this many levels of supertypes: what is remembered, or what is then gathered and remembered.
#[cycle(listing)]
fn known_members(
    alloc: Global,
    remembered: &mut Remembered<'_>,
    levels: u32,
    at: &ElementRef,
    effort: &mut Effort,
) -> Result<Option<KnownMembers>, NoMemory>
    ensures known { IfOk result (λ known. AreKnownWithin remembered.old at.now levels known) }
    ensures kept { remembered.new ≡ remembered.old }
{
    if let Some(known) = remembered.recalled(at)? {
        if known.levels > levels {
            return Ok(None);
        }
        return Ok(Some(known));
    }
    let supers = super_elements(alloc, remembered, at)?;
    match gathered(alloc, remembered, levels, at, supers.as_slice(), effort)? {
        None => Ok(None),
        Some(known) => {
            let copy = known.copy(alloc)?;
            remembered.remember(at, copy)?;
            Ok(Some(known))
        }
    }
}

// The own members, and then those of each supertype in order.
#[cycle(listing)]
fn gathered(
    alloc: Global,
    remembered: &mut Remembered<'_>,
    levels: u32,
    at: &ElementRef,
    supers: &[ElementRef],
    effort: &mut Effort,
) -> Result<Option<KnownMembers>, NoMemory>
    requires { supers.now ≡ members.super_elements remembered.old at.now }
    ensures known { IfOk result (λ known. AreKnownWithin remembered.old at.now levels known) }
    ensures kept { remembered.new ≡ remembered.old }
{
    let mut list = own_listing(alloc, remembered.table(), at, effort)?;
    let mut methods = Methods::new(alloc, remembered.table(), at);
    let mut wanted: u32 = 0;
    for each in supers {
        if levels == 0 {
            return Ok(None);
        }
        match known_members(alloc, remembered, levels - 1, each, effort)? {
            None => return Ok(None),
            Some(above) => {
                if !add_above(
                    alloc,
                    remembered,
                    &mut methods,
                    at,
                    &mut list,
                    above.list.as_slice(),
                    effort,
                )? {
                    return Ok(None);
                }
                wanted = wanted.max(above.levels + 1);
            }
        }
    }
    Ok(Some(KnownMembers {
        levels: wanted,
        list: list.into_list(),
    }))
}

/// The members of a type (JLS 8.2, 9.2), its own first and then those that it inherits of the superclass and of the interfaces in order; `None` where the supertypes go on behind 64 levels, or where a question on hiding or overriding between two of them has no answer within 64 steps.
///
/// Each type is listed once, a member is compared with those of its name alone, and its signature is resolved once for a type. Out of memory comes also where the lists take more than 1,048,576 steps: two for each own member, four for each member of a supertype, two for each other one of its name that may displace it, and for each comparison of two signatures three and one for each layer of the second one.
pub fn all_members(
    alloc: Global,
    table: &Table,
    at: &ElementRef,
) -> Result<Option<List<ElementRef>>, NoMemory>
    ensures { IfOk result (λ list. list ≡ members.members table.now max_type_steps at.now) }
{
    let mut remembered = Remembered::new(alloc, table);
    let mut effort = effort_of_comparisons();
    match known_members(alloc, &mut remembered, MAX_TYPE_STEPS, at, &mut effort)? {
        None => Ok(None),
        Some(known) => Ok(Some(known.list)),
    }
}
