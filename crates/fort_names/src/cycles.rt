//! USE lines of modules that lie on a cycle.
ghost use Rattle.std.specs.Prelude.{◌≡◌, ◌++◌, IfOk, OnOk};
ghost use Rattle.std.specs.List.{list_all};
ghost use Rattle.std.specs.Str.{bytes_eq};
ghost use Rattle.fort_tree.specs.declared.fault.Code.TheVariants.{E34};
ghost use Rattle.indexmap.specs.IndexMap.{get};
ghost use Rattle.sound_programs.specs.DeclarationFaults.{first_on_cycle};
ghost use Rattle.sound_programs.specs.Faults.{found};
ghost use Rattle.sound_programs.specs.Links.{leads};
ghost use Rattle.sound_programs.specs.Placing.{placed};
ghost use Rattle.fort_names.specs.Circles.{links_after, links_by, links_of_modules, one_further, AreThose, falls, rank_in, circle_place, circle_places};
ghost use Rattle.fort_names.specs.Leasts.{noted};
ghost use Rattle.fort_names.specs.NameLists.{has};

use crate::firsts::Firsts;
use crate::homes::module_names;
use crate::least::{Least, is_earlier};
use crate::links::order_of;
use crate::name_set::NameSet;
use fort_tree::{Code, File, Module, Name, NoMemory, Place, Use};
use indexmap::IndexMap;
use std::alloc::Global;

/// A USE line of a module: the module, the module that it names, and its place.
#[derive(Clone, Copy, Debug)]
pub struct Link {
    pub user: Name,
    pub name: Name,
    pub at: Place,
}

fn add_links(links: &mut Vec<Link>, user: &Name, lines: &[Use]) -> Result<(), NoMemory>
    ensures { OnOk result (links.new.items ≡ links.old.items ++ links_by user.now lines.now) }
{
    for line in lines {
        links.push(Link {
            user: *user,
            name: line.name,
            at: line.at,
        })?;
    }
    Ok(())
}

fn links_of(alloc: Global, modules: &[Module]) -> Result<Vec<Link>, NoMemory>
    ensures { IfOk result (λ links. links.items ≡ links_of_modules modules.now) }
{
    let mut links = Vec::new(alloc);
    for one in modules {
        add_links(&mut links, &one.name, one.uses.items())?;
    }
    Ok(links)
}

fn rank(ranks: &IndexMap<Name, usize>, name: &Name) -> usize
    ensures { result ≡ rank_in (get bytes_eq ranks.now name.now) }
{
    match ranks.get(name) {
        None => 0,
        Some(rank) => *rank,
    }
}

/// Gives each module a greater rank than those that its lines name, as far as one turn through the lines goes. Tells whether a rank changed.
fn raise(ranks: &mut IndexMap<Name, usize>, links: &[Link]) -> Result<bool, NoMemory> {
    let mut raised = false;
    for link in links {
        let used = rank(ranks, &link.name);
        if rank(ranks, &link.user) <= used {
            ranks.insert(link.user, used.saturating_add(1))?;
            raised = true;
        }
    }
    Ok(raised)
}

/// For each module its place in an order in which each stands behind all that it uses. The modules that lead to a cycle have none.
fn places_in_order(alloc: Global, modules: &[Module]) -> Result<IndexMap<Name, usize>, NoMemory> {
    let names = Firsts::of(alloc, module_names(alloc, modules)?)?;
    let order = order_of(alloc, &names, modules)?;
    let mut places = IndexMap::new(alloc);
    for (place, number) in order.iter().enumerate() {
        if let Some(one) = modules.get(*number) {
            places.insert(one.name, place.saturating_add(1))?;
        }
    }
    Ok(places)
}

/// Ranks for modules. Whether they fall along each line is tested afterwards. Without cycles, and where no two modules have one name, they do so from the start.
fn ranks_of(
    alloc: Global,
    modules: &[Module],
    links: &[Link],
) -> Result<IndexMap<Name, usize>, NoMemory> {
    let mut ranks = places_in_order(alloc, modules)?;
    for _turn in 0..modules.len() {
        if !raise(&mut ranks, links)? {
            return Ok(ranks);
        }
    }
    Ok(ranks)
}

fn is_falling(ranks: &IndexMap<Name, usize>, links: &[Link]) -> bool
    ensures { result ≡ falls (λ x. rank_in (get bytes_eq ranks.now x)) links.now }
{
    links
        .iter()
        .all(|link| rank(ranks, &link.name) < rank(ranks, &link.user))
}

fn later_links(alloc: Global, links: &[Link], at: Place) -> Result<Vec<(Name, Name)>, NoMemory>
    ensures { IfOk result (λ later. later.items ≡ links_after at links.now) }
{
    let mut later = Vec::new(alloc);
    for link in links {
        if is_earlier(at, link.at) {
            later.push((link.user, link.name))?;
        }
    }
    Ok(later)
}

/// The name, and what leads to one of the others in one link.
fn further(
    alloc: Global,
    links: &[(Name, Name)],
    to: &Name,
    names: &NameSet,
) -> Result<NameSet, NoMemory>
    ensures { IfOk result (λ next. AreThose next (one_further links.now to.now (has names.now))) }
{
    let mut next = NameSet::new(alloc);
    next.insert(*to)?;
    for link in links {
        if names.has(&link.1) {
            next.insert(link.0)?;
        }
    }
    Ok(next)
}

fn are_among(some: &[Name], names: &NameSet) -> bool
    ensures { result ≡ list_all (has names.now) some.now }
{
    some.iter().all(|name| names.has(name))
}

/// Whether the links lead from one name to another.
fn is_led(alloc: Global, links: &[(Name, Name)], from: &Name, to: &Name) -> Result<bool, NoMemory>
    ensures { IfOk result (λ led. led ≡ leads links.now from.now to.now) }
{
    let mut names = NameSet::new(alloc);
    names.insert(*to)?;
    for _round in 0..links.len() {
        let next = further(alloc, links, to, &names)?;
        if are_among(next.names(), &names) {
            return Ok(names.has(from));
        }
        names = next;
    }
    Ok(names.has(from))
}

/// Notes the line if it is the first on a cycle. That is asked only where it would be the least fault.
#[tactic(auto, using(crate::proofs::CirclesAre::unchanged))]
fn note_link(alloc: Global, least: &mut Least, links: &[Link], link: &Link) -> Result<(), NoMemory>
    ensures { OnOk result (least.new ≡ noted (found E34 (circle_place links.now link.now)) least.old) }
{
    if least.changes(Code::E34, link.at) {
        let later = later_links(alloc, links, link.at)?;
        let led = is_led(alloc, later.as_slice(), &link.name, &link.user)?;
        least.note_if(led, Code::E34, link.at);
    }
    Ok(())
}

/// Notes each line that is the first on a cycle.
fn note_links(alloc: Global, least: &mut Least, links: &[Link]) -> Result<(), NoMemory>
    ensures { OnOk result (least.new ≡ noted (found E34 (circle_places links.now links.now)) least.old) }
{
    for link in links {
        note_link(alloc, least, links, link)?;
    }
    Ok(())
}

/// Notes each USE line of a module that is the first on a cycle.
///
/// # Errors
/// `NoMemory` only where memory was refused.
pub fn note_cycles(alloc: Global, least: &mut Least, file: &File) -> Result<(), NoMemory>
    ensures { OnOk result (least.new ≡ noted (found E34 (first_on_cycle (placed file.now))) least.old) }
{
    let modules = file.modules.items();
    let links = links_of(alloc, modules)?;
    let ranks = ranks_of(alloc, modules, links.as_slice())?;
    if !is_falling(&ranks, links.as_slice()) {
        note_links(alloc, least, links.as_slice())?;
    }
    Ok(())
}
