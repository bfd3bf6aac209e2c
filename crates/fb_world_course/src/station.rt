//! A device of a world, and the roots that its causes open.

ghost use Rattle.std.specs.Prelude.{ℕ, ◌≡◌, ◌+◌, ◌<◌, ◌≤◌, ◌^◌, length, is_ok, is_some, true, false, Some, MatchOption, slice_get, if◌then◌else◌};
ghost use Rattle.std.specs.List.{AllByRecursion};
ghost use Rattle.fb_verified.specs.Lookups.{is_same_path};
ghost use Rattle.std.specs.Vec.{vec_capacity};
ghost use Rattle.indexmap.specs.IndexMap.{spare};
ghost use Rattle.fb_model.specs.Devices.{put, Happens, Offer, Deliver, Tick, Expired};
ghost use Rattle.fb_model.specs.Wires.{leaves};
ghost use Rattle.fb_device_arrivals.specs.Answers.{admission_of};
ghost use Rattle.fb_device_state.specs.Machines.{device_in, cert_in, machine_of};
ghost use Rattle.fb_world_course.specs.Scenes.{root_for};
ghost use Rattle.fb_world_course.specs.Roots.{with_device, IsPending, IsCounted, OpensRoots, EntersRoot};

use fb_device::{Denied, Device, Opening, Ran};
use indexmap::IndexMap;

/// A device of a world.
#[derive(Drop)]
pub struct Station {
    pub device: Device,
    /// How many causes it has opened. They are numbered from 1.
    pub causes: u64,
    /// The root of each cause that has a pending entry.
    pub roots: IndexMap<u64, u64>,
}

/// What opened a root: the device by its number, and the arrival there. And the steps of the root so far on all devices.
#[derive(Clone, Copy)]
pub struct Root {
    pub device: u16,
    pub opening: Opening,
    pub steps: u128,
}

// Whether a device has a name, but for letter case.
fn is_named(station: &Station, name: &str) -> bool
    ensures { result ≡ is_same_path (device_in station.now.device).name name.now }
{
    station.device.name().eq_ignore_ascii_case(name)
}

/// The number of the first device of a name.
pub fn numbered(stations: &[Station], name: &str) -> Option<u16>
    requires { length stations.now ≤ 16 }
    ensures { MatchOption result (AllByRecursion (λ (s : _). is_same_path (device_in s.device).name name.now ≡ false) stations.now) (λ n. (s : _) × (slice_get stations.now n ≡ Some s) × (is_same_path (device_in s.device).name name.now ≡ true)) }
{
    for at in 0..stations.len() {
        if is_named(&stations[at], name) {
            return Some(at as u16);
        }
    }
    None
}

impl Station {
    /// The root of a cause; 0 where it has none.
    pub fn root_of(&self, cause: u64) -> u64
        ensures { result ≡ root_for self.now.roots.entries cause }
    {
        match self.roots.get(&cause) {
            Some(root) => *root,
            None => 0,
        }
    }

    /// The root of a cause that has ended is forgotten.
    pub fn forget(&mut self, cause: u64)
        ensures rooted { (c : ℕ) → root_for self.new.roots.entries c ≡ put (root_for self.old.roots.entries) cause 0 c }
        ensures spare { spare self.old.roots ≤ spare self.new.roots }
        ensures device { self.new.device ≡ self.old.device }
        ensures causes { self.new.causes ≡ self.old.causes }
    {
        let _ = self.roots.swap_remove(&cause);
    }

    /// Its next cause is of this root.
    pub fn enter(&mut self, root: u64)
        requires spare { 0 < spare self.old.roots }
        requires number { self.old.causes + 1 < 2 ^ 64 }
        ensures rooted { (c : ℕ) → root_for self.new.roots.entries c ≡ put (root_for self.old.roots.entries) (self.old.causes + 1) root c }
        ensures spare { spare self.old.roots ≤ spare self.new.roots + 1 }
        ensures device { self.new.device ≡ self.old.device }
        ensures causes { self.new.causes ≡ self.old.causes + 1 }
    {
        self.causes += 1;
        match self.roots.insert(self.causes, root) {
            Ok(_) => {}
            Err(_) => unreachable!(),
        }
    }

    // Its next cause opens a root.
    fn open(&mut self, number: u16, roots: &mut Vec<Root>)
        requires pending { IsPending self.old.device (self.old.causes + 1) }
        requires spare { 0 < spare self.old.roots }
        requires number { self.old.causes + 1 < 2 ^ 64 }
        requires room { length roots.old.items < vec_capacity roots.old }
        ensures opens { OpensRoots self.old number 1 roots.old.items self.new roots.new.items }
        ensures spare { spare self.old.roots ≤ spare self.new.roots + 1 }
        ensures room { vec_capacity roots.new ≡ vec_capacity roots.old }
    {
        let Some(opening) = self.device.opening(self.causes + 1) else {
            unreachable!()
        };
        roots.push_reserved(Root {
            device: number,
            opening,
            steps: 0,
        });
        self.enter(roots.len() as u64);
    }

    /// So many next causes open a root each.
    pub fn open_all(&mut self, number: u16, count: usize, roots: &mut Vec<Root>)
        requires pending { (k : ℕ) → k < count → IsPending self.old.device (self.old.causes + 1 + k) }
        requires spare { count ≤ spare self.old.roots }
        requires numbers { 0 < count → self.old.causes + count < 2 ^ 64 }
        requires room { length roots.old.items + count ≤ vec_capacity roots.old }
        ensures opens { OpensRoots self.old number count roots.old.items self.new roots.new.items }
        ensures spare { spare self.old.roots ≤ spare self.new.roots + count }
        ensures room { vec_capacity roots.new ≡ vec_capacity roots.old }
    {
        for _ in 0..count {
            self.open(number, roots);
        }
    }

    /// An offer: the cause that it opens opens a root.
    pub fn offer(
        &mut self,
        number: u16,
        input: u16,
        values: &[i64],
        roots: &mut Vec<Root>,
    ) -> Result<u64, Denied>
        requires counted { IsCounted self.old }
        requires spare { 1 ≤ spare self.old.roots }
        requires room { length roots.old.items + 1 ≤ vec_capacity roots.old }
        ensures step { Happens (cert_in self.old.device) (device_in self.old.device) (machine_of self.old.device) (Offer input values.now) (admission_of result) (machine_of self.new.device) }
        ensures opens { OpensRoots (with_device self.old self.new.device) number (if is_ok result then 1 else 0) roots.old.items self.new roots.new.items }
        ensures same { (self.new.device.verified ≡ self.old.device.verified) × (self.new.device.number ≡ self.old.device.number) }
        ensures spare { spare self.old.roots ≤ spare self.new.roots + 1 }
        ensures room { vec_capacity roots.new ≡ vec_capacity roots.old }
    {
        let admitted = self.device.offer(input, values);
        if admitted.is_ok() {
            self.open_all(number, 1, roots);
        }
        admitted
    }

    /// A moment of the clock: each cause that it opens opens a root.
    pub fn tick(&mut self, number: u16, now: u64, roots: &mut Vec<Root>) -> u32
        requires counted { IsCounted self.old }
        requires spare { length (leaves (device_in self.old.device)) ≤ spare self.old.roots }
        requires room { length roots.old.items + length (leaves (device_in self.old.device)) ≤ vec_capacity roots.old }
        ensures step { Happens (cert_in self.old.device) (device_in self.old.device) (machine_of self.old.device) (Tick now) (Expired result) (machine_of self.new.device) }
        ensures opens { OpensRoots (with_device self.old self.new.device) number result roots.old.items self.new roots.new.items }
        ensures few { result ≤ length (leaves (device_in self.old.device)) }
        ensures same { (self.new.device.verified ≡ self.old.device.verified) × (self.new.device.number ≡ self.old.device.number) }
        ensures spare { spare self.old.roots ≤ spare self.new.roots + length (leaves (device_in self.old.device)) }
        ensures room { vec_capacity roots.new ≡ vec_capacity roots.old }
    {
        let count = self.device.tick(now);
        self.open_all(number, count as usize, roots);
        count
    }

    /// Bytes of a root come in: the cause that they open is of this root.
    pub fn deliver(&mut self, bytes: &[u8], root: u64) -> Result<u64, Denied>
        requires counted { IsCounted self.old }
        requires spare { 1 ≤ spare self.old.roots }
        ensures step { Happens (cert_in self.old.device) (device_in self.old.device) (machine_of self.old.device) (Deliver bytes.now) (admission_of result) (machine_of self.new.device) }
        ensures enters { EntersRoot self.old (is_ok result) root self.new }
        ensures same { (self.new.device.verified ≡ self.old.device.verified) × (self.new.device.number ≡ self.old.device.number) }
        ensures spare { spare self.old.roots ≤ spare self.new.roots + 1 }
    {
        let admitted = self.device.deliver(bytes);
        if admitted.is_ok() {
            self.enter(root);
        }
        admitted
    }

    /// The root of a cause that was dispatched. It is forgotten where the cause has ended.
    pub fn settle(&mut self, ran: &Ran) -> u64
        ensures root { result ≡ root_for self.old.roots.entries ran.now.cause }
        ensures rooted { (c : ℕ) → root_for self.new.roots.entries c ≡ (if is_some ran.now.ended then put (root_for self.old.roots.entries) ran.now.cause 0 else root_for self.old.roots.entries) c }
        ensures spare { spare self.old.roots ≤ spare self.new.roots }
        ensures device { self.new.device ≡ self.old.device }
        ensures causes { self.new.causes ≡ self.old.causes }
    {
        let root = self.root_of(ran.cause);
        if ran.ended.is_some() {
            self.forget(ran.cause);
        }
        root
    }
}
