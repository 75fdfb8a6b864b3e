ghost use Rattle.std.specs.Prelude.{◌≡◌, ◌+◌, ◌^◌, ◌<◌, ◌≤◌, IfOk, IfSome, map};
ghost use Rattle.std.specs.List.{AllByRecursion};
ghost use Rattle.flat_model.specs.Cover.{pair_of};
ghost use Rattle.flat_model.specs.Plan.{grant_pairs, overlay_pair};
ghost use Rattle.flat_model.specs.Sound.{IsSound};
ghost use Rattle.region_packer.specs.Directory.{IsCoverable};
ghost use Rattle.region_rotation.specs.Directories.{AreDirectories};
ghost use Rattle.region_rotation.specs.Rotation.{home_pairs};

use arrayvec::ArrayVec;
use flat_model::{Board, BoxPart, Config, Item, Items, OutOfMemory, Pair, Range};
use region_packer::{Directory, cover};
use std::alloc::Global;

/// RASR without SIZE of flash, which may be read and executed.
const FLASH: u32 = 0x0600_0001;

/// RASR without SIZE of own memory, which may be read and written.
const OWN: u32 = 0x1300_0001;

/// RASR without SIZE of the region that hides the secret range.
const HIDDEN: u32 = 0x1000_0001;

/// A region that is disabled.
pub const OFF: Pair = Pair { rbar: 0, rasr: 0 };

/// The regions of a box: those that stand at a switch, and those that cover its grants.
#[derive(Debug, Drop)]
pub struct HomePairs {
    pub flash: Pair,
    pub own: Pair,
    pub overlay: Pair,
    pub grants: Items<Pair>,
}

fn region_of(range: Range, bits: u32) -> Pair
    requires room { bits < 2 ^ 31 }
    requires least { 32 ≤ range.len }
    ensures { result ≡ pair_of range bits }
{
    let exponent = 31 - range.len.leading_zeros();
    Pair {
        rbar: range.base,
        rasr: bits + 2 * (exponent - 1),
    }
}

fn overlay_of(board: &Board, part: &BoxPart) -> Pair
    requires { IfSome board.now.secret (λ secret. 32 ≤ secret.len) }
    ensures { result ≡ overlay_pair board.now part.now }
{
    if part.secret {
        return OFF;
    }
    match board.secret {
        Some(secret) => region_of(secret, HIDDEN),
        None => OFF,
    }
}

fn regions_of_grants(alloc: Global, grants: &[Item]) -> Result<Vec<Pair>, OutOfMemory>
    requires { AllByRecursion IsCoverable grants.now }
    ensures { IfOk result (λ v. v.items ≡ grant_pairs grants.now) }
{
    let mut regions = Vec::new(alloc);
    for grant in grants {
        let mut pairs = ArrayVec::new();
        cover(grant.range, grant.rights, &mut pairs);
        regions.extend_from_slice(pairs.as_slice())?;
    }
    Ok(regions)
}

fn home_of(alloc: Global, cfg: &Config, part: &BoxPart) -> Result<HomePairs, OutOfMemory>
    requires flash { 32 ≤ cfg.now.board.flash.len }
    requires own { 32 ≤ part.now.own.len }
    requires secret { IfSome cfg.now.board.secret (λ secret. 32 ≤ secret.len) }
    requires grants { AllByRecursion IsCoverable part.now.grants }
    ensures { IfOk result (λ home. home ≡ home_pairs cfg.now part.now) }
{
    let grants = regions_of_grants(alloc, part.grants.as_slice())?;
    Ok(HomePairs {
        flash: region_of(cfg.board.flash, FLASH),
        own: region_of(part.own, OWN),
        overlay: overlay_of(&cfg.board, part),
        grants: Items::from_vec(grants),
    })
}

/// The regions of each box of a configuration.
pub fn homes_of(alloc: Global, cfg: &Config) -> Result<Vec<HomePairs>, OutOfMemory>
    requires { IsSound cfg.now }
    ensures { IfOk result (λ v. v.items ≡ map (home_pairs cfg.now) cfg.now.boxes) }
{
    let mut homes = Vec::new(alloc);
    for part in cfg.boxes.as_slice() {
        homes.push(home_of(alloc, cfg, part)?)?;
    }
    Ok(homes)
}

/// The directory of each box of a configuration.
pub fn directories_of(alloc: Global, cfg: &Config) -> Result<Vec<Directory>, OutOfMemory>
    requires { IsSound cfg.now }
    ensures { IfOk result (λ v. AreDirectories (map (home_pairs cfg.now) cfg.now.boxes) v.items) }
{
    let mut directories = Vec::new(alloc);
    for part in cfg.boxes.as_slice() {
        directories.push(Directory::new(alloc, part.grants.as_vec())?)?;
    }
    Ok(directories)
}
