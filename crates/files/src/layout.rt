// Reading a plan file, field by field, in file order.
ghost use Rattle.std.specs.Prelude.{◌≡◌, ◌+◌, ◌*◌, ◌^◌, ◌<◌, ◌≤◌, length, IfOk, OnOk, vec_items, sum};
ghost use Rattle.files.specs.declared.layout.FileFault.TheVariants.{Memory};
ghost use Rattle.files.specs.Layout.{field, entry, contents, tables, stop, stops, bodies, layout};
ghost use Rattle.files.specs.Bytes.{ReadsExactly};
ghost use Rattle.files.specs.Fields.{RefusesExactly};
ghost use Rattle.files.specs.Views.{Gives, same, path_of, paths_of, layout_of};

use crate::laws::readings_stand;
use crate::plan::{
    MOST_SHUTTLES, MOST_STOPS, MOST_STOPS_IN_ALL, MOST_TABLES, Path, PlanFile, Stop,
};
use std::alloc::{AllocError, AllocFailed, Global};

// Why a file is not a plan file: the byte place of the field at fault, or want of memory.
#[derive(Clone, Copy, PartialEq, Eq, Debug)]
pub enum FileFault {
    Torn(usize),
    Memory,
}

// Want of memory comes as two types of error. Both conversions are written out: a derived one (`thiserror`) has no clause that says what comes of it, and one generic over both would overlap with the others.
impl From<AllocError> for FileFault {
    ghost from_gives = { λ _ r. r ≡ Memory };

    fn from(_e: AllocError) -> FileFault {
        FileFault::Memory
    }
}

impl<T: Drop> From<AllocFailed<T>> for FileFault {
    ghost from_gives = { λ _ r. r ≡ Memory };

    fn from(_e: AllocFailed<T>) -> FileFault {
        FileFault::Memory
    }
}

// The stop counts of the paths, and where the last body ends.
#[derive(Drop)]
struct Contents {
    counts: Vec<u16>,
    end: usize,
}

// The bytes of a file, and the place of the next one to be read.
#[derive(Drop)]
struct Reader<'a> {
    bytes: &'a [u8],
    at: usize,
}

// Each function says that the file stays the same, which its caller cannot see from a `&mut self`. Its loops are no chains of iterators: each turn moves the reader on, and a closure that does so would need a clause of its own for what it leaves.
impl<'a> Reader<'a> {
    // The next number, which has to lie from `low` to `high`.
    fn number(&mut self, low: usize, high: usize) -> Result<u16, FileFault>
        ensures value { Gives same result (field low high self.old.at self.old.bytes.now) }
        ensures range { IfOk result (λ n. (low ≤ n) × (n ≤ high)) }
        ensures next { OnOk result (self.new.at ≡ self.old.at + 2) }
        ensures file { self.new.bytes ≡ self.old.bytes }
    {
        let len = self.bytes.len();
        if len < 2 || self.at > len - 2 {
            return Err(FileFault::Torn(len));
        }
        let n = u16::from_be_bytes([self.bytes[self.at], self.bytes[self.at + 1]]);
        if usize::from(n) < low || usize::from(n) > high {
            return Err(FileFault::Torn(self.at));
        }
        self.at += 2;
        Ok(n)
    }

    // The stop count of a path whose body begins at `begin`, where there is room for `room` stops.
    fn entry(&mut self, begin: usize, room: usize) -> Result<u16, FileFault>
        ensures value { Gives same result (entry self.old.bytes.now (record { at = self.old.at; begin = begin; room = room })) }
        ensures range { IfOk result (λ n. (n ≤ room) × (n ≤ MOST_STOPS)) }
        ensures next { OnOk result (self.new.at ≡ self.old.at + 4) }
        ensures file { self.new.bytes ≡ self.old.bytes }
    {
        self.number(begin, begin)?;
        self.number(1, room.min(MOST_STOPS))
    }

    fn contents(
        &mut self,
        alloc: Global,
        shuttles: u16,
        begin: usize,
    ) -> Result<Contents, FileFault>
        requires start { self.old.at ≡ 4 }
        requires begin { begin < 2 ^ 16 }
        ensures value { Gives (λ c. c.counts.items) result (contents self.old.bytes.now shuttles begin) }
        ensures end { IfOk result (λ c. c.end ≡ begin + 4 * sum c.counts.items) }
        ensures few { IfOk result (λ c. sum c.counts.items ≤ MOST_STOPS_IN_ALL) }
        ensures next { OnOk result (self.new.at ≡ 4 + 4 * shuttles) }
        ensures file { self.new.bytes ≡ self.old.bytes }
    {
        let mut counts = Vec::new(alloc);
        let mut end = begin;
        let mut room = MOST_STOPS_IN_ALL;
        for _ in 0..shuttles {
            let count = self.entry(end, room)?;
            end += 4 * usize::from(count);
            room -= usize::from(count);
            counts.push(count)?;
        }
        Ok(Contents { counts, end })
    }

    // The table places.
    fn tables(&mut self, alloc: Global, places: u16) -> Result<Vec<u16>, FileFault>
        ensures value { Gives vec_items result (tables self.old.bytes.now places self.old.at) }
        ensures next { OnOk result (self.new.at ≡ self.old.at + 2 * places) }
        ensures file { self.new.bytes ≡ self.old.bytes }
    {
        let mut tables = Vec::new(alloc);
        let mut low = 0;
        for _ in 0..places {
            let place = self.number(low, 65535)?;
            low = usize::from(place) + 1;
            tables.push(place)?;
        }
        Ok(tables)
    }

    fn stop(&mut self) -> Result<Stop, FileFault>
        ensures value { Gives same result (stop self.old.bytes.now self.old.at) }
        ensures next { OnOk result (self.new.at ≡ self.old.at + 4) }
        ensures file { self.new.bytes ≡ self.old.bytes }
    {
        let place = self.number(0, 65535)?;
        let tick = self.number(0, 65535)?;
        Ok(Stop { place, tick })
    }

    // The body of a path with `count` stops.
    fn path(&mut self, alloc: Global, count: u16) -> Result<Path, FileFault>
        ensures value { Gives path_of result (stops self.old.bytes.now count self.old.at) }
        ensures len { IfOk result (λ p. length (path_of p) ≡ count) }
        ensures next { OnOk result (self.new.at ≡ self.old.at + 4 * count) }
        ensures file { self.new.bytes ≡ self.old.bytes }
    {
        let mut stops = Vec::new(alloc);
        for _ in 0..count {
            stops.push(self.stop()?)?;
        }
        Ok(Path { stops })
    }

    // The bodies of all paths.
    fn bodies(&mut self, alloc: Global, counts: &[u16]) -> Result<Vec<Path>, FileFault>
        ensures value { Gives (λ v. paths_of v.items) result (bodies self.old.bytes.now counts.now self.old.at) }
        ensures file { self.new.bytes ≡ self.old.bytes }
    {
        let mut paths = Vec::new(alloc);
        for count in counts {
            paths.push(self.path(alloc, *count)?)?;
        }
        Ok(paths)
    }
}

/// What a plan file holds. Any file that is not the file of a plan within the limits is refused, with the
/// byte place of its first fault.
pub fn read_file(alloc: Global, bytes: &[u8]) -> Result<PlanFile, FileFault>
    ensures value { Gives layout_of result (layout bytes.now) }
    ensures exact { ReadsExactly bytes.now }
    ensures refused { RefusesExactly bytes.now }
{
    readings_stand(bytes);
    let mut reader = Reader { bytes, at: 0 };
    let shuttles = reader.number(1, MOST_SHUTTLES)?;
    let places = reader.number(0, MOST_TABLES)?;
    let begin = 4 + 4 * usize::from(shuttles) + 2 * usize::from(places);
    let contents = reader.contents(alloc, shuttles, begin)?;
    let tables = reader.tables(alloc, places)?;
    let paths = reader.bodies(alloc, contents.counts.as_slice())?;
    if bytes.len() > contents.end {
        return Err(FileFault::Torn(contents.end));
    }
    Ok(PlanFile { paths, tables })
}
