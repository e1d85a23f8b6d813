// The runs that are tested of every kind.
use records::{
    Layer, Named, PlanRecord, Record, RuleRecord, RunFault, check_run, read_back, read_run,
    rewrite_run, write_run,
};
use sources::SourceRecord;
use std::alloc::Global;
use std::test::Fail;

// A fact: atom 7.
const RULE: &[u8; 48] = b"R\0\0\0\
    \x07\xff\xff\xff\xff\xff\xff\xff\
    \0\0\0\0\0\0\0\0\0\0\0\0\0\0\0\0\0\0\0\0\0\0\0\0\0\0\0\0\0\0\0\0\
    \x64\0\0\0";

// Atom 1 is in.
const PLAN: &[u8; 48] = b"C\0\0\0\
    \xff\xff\xff\xff\xff\xff\xff\xff\
    \x02\0\0\0\0\0\0\0\0\0\0\0\0\0\0\0\0\0\0\0\0\0\0\0\0\0\0\0\0\0\0\0\
    \x01\0\0\0";

// Two inputs, on the days 3 and 4.
const WEEK: &[u8; 48] = b"SK\0\0\
    \0\x01\xff\xff\xff\xff\xff\xff\
    \x03\0\0\0\x04\0\0\0\0\0\0\0\0\0\0\0\0\0\0\0\0\0\0\0\0\0\0\0\0\0\0\0\
    \x02\0\0\0";

const LENGTH: Named = Named {
    layer: Layer::File,
    number: 1,
    byte: 0,
};

const LETTER: Named = Named {
    layer: Layer::Record,
    number: 2,
    byte: 0,
};

// Bytes under test, with the name that a failed check bears.
#[derive(Clone, Copy)]
struct Run<'a> {
    heap: Global,
    name: &'a str,
    bytes: &'a [u8],
}

impl Run<'_> {
    // `record_edges` has the same for its labels: what is under cfg(test) serves one crate alone.
    fn failed(&self, what: &str) -> Fail {
        let name = self.name;
        Fail::new(format_args!("{name}: {what}"))
    }

    fn check(&self, holds: bool) -> Result<(), Fail> {
        if holds {
            Ok(())
        } else {
            Err(self.failed("differs"))
        }
    }

    fn check_fault(&self, fault: RunFault, place: usize, want: Named) -> Result<(), Fail> {
        self.check(fault.place() == place)?;
        self.check(fault.named() == Some(want))
    }

    fn check_refused<K: Record>(&self, place: usize, want: Named) -> Result<(), Fail>
    where
        K::Decoded: Drop,
    {
        match check_run::<K>(self.bytes) {
            Ok(_) => return Err(self.failed("counted")),
            Err(fault) => self.check_fault(fault, place, want)?,
        }
        match read_run::<K>(self.heap, self.bytes) {
            Ok(_) => Err(self.failed("read")),
            Err(fault) => self.check_fault(fault, place, want),
        }
    }

    // Both round trips in one call each, over a place that holds nothing of the run before.
    fn check_trips<K: Record>(&self, values: &[K::Decoded]) -> Result<(), Fail>
    where
        K::Decoded: Drop,
    {
        let mut place = vec![in self.heap; 0xAA; self.bytes.len()]?;
        rewrite_run::<K>(self.heap, self.bytes, place.as_mut_slice())?;
        self.check(place.as_slice() == self.bytes)?;
        let mut fresh = vec![in self.heap; 0xAA; self.bytes.len()]?;
        let same = read_back::<K>(self.heap, values, fresh.as_mut_slice())?;
        self.check(fresh.as_slice() == self.bytes)?;
        let mut again = vec![in self.heap; 0xAA; self.bytes.len()]?;
        write_run::<K>(same.as_slice(), again.as_mut_slice())?;
        self.check(again.as_slice() == self.bytes)
    }

    // What is read is written again as the same bytes.
    fn check_kept<K: Record>(&self, count: usize) -> Result<(), Fail>
    where
        K::Decoded: Drop,
    {
        self.check(check_run::<K>(self.bytes) == Ok(count))?;
        let values = read_run::<K>(self.heap, self.bytes)?;
        self.check(values.len() == count)?;
        let mut place = vec![in self.heap; 0xAA; self.bytes.len()]?;
        write_run::<K>(values.as_slice(), place.as_mut_slice())?;
        self.check(place.as_slice() == self.bytes)?;
        self.check_trips::<K>(values.as_slice())
    }

    // A place that is refused keeps its bytes.
    fn check_misfit<K: Record>(&self, values: &[K::Decoded], len: usize) -> Result<(), Fail> {
        let mut place = [0xAA; 96];
        if len > 96 {
            return Err(self.failed("too long"));
        }
        match write_run::<K>(values, &mut place[0..len]) {
            Ok(()) => return Err(self.failed("written")),
            Err(fault) => self.check_fault(fault, 0, LENGTH)?,
        }
        self.check(place == [0xAA; 96])
    }
}

// A record that its kind accepts, and one that it refuses.
#[derive(Clone, Copy)]
struct Samples<'a> {
    heap: Global,
    good: &'a [u8; 48],
    bad: &'a [u8; 48],
}

impl Samples<'_> {
    fn run<'a>(&self, name: &'a str, bytes: &'a [u8]) -> Run<'a> {
        Run {
            heap: self.heap,
            name,
            bytes,
        }
    }

    fn join(&self, records: &[&[u8; 48]]) -> Result<Vec<u8>, Fail> {
        let mut run = Vec::new(self.heap);
        for record in records {
            run.extend_from_slice(*record)?;
        }
        Ok(run)
    }

    // All good, the second one bad, and the first and the third bad.
    fn check_places<K: Record>(&self) -> Result<(), Fail>
    where
        K::Decoded: Drop,
    {
        let Samples { good, bad, .. } = *self;
        self.run("no record", &[]).check_kept::<K>(0)?;
        let three = self.join(&[good, good, good])?;
        self.run("three good", three.as_slice()).check_kept::<K>(3)?;
        let second = self.join(&[good, bad, good])?;
        self.run("second bad", second.as_slice())
            .check_refused::<K>(1, LETTER)?;
        let first = self.join(&[bad, good, bad])?;
        self.run("first and third bad", first.as_slice())
            .check_refused::<K>(0, LETTER)
    }

    // A length that is not that of whole records, and 512 and 513 of them.
    fn check_lengths<K: Record>(&self) -> Result<(), Fail>
    where
        K::Decoded: Drop,
    {
        let good = self.good;
        let mut run = Vec::new(self.heap);
        for _ in 0..512 {
            run.extend_from_slice(good)?;
        }
        self.run("512 records", run.as_slice())
            .check_kept::<K>(512)?;
        run.push(0)?;
        self.run("a byte more", run.as_slice())
            .check_refused::<K>(0, LENGTH)?;
        run.extend_from_slice(&good[1..48])?;
        self.run("513 records", run.as_slice())
            .check_refused::<K>(0, LENGTH)?;
        self.run("47 bytes", &good[0..47])
            .check_refused::<K>(0, LENGTH)
    }

    fn check<K: Record>(&self) -> Result<(), Fail>
    where
        K::Decoded: Drop,
    {
        self.check_places::<K>()?;
        self.check_lengths::<K>()?;
        let good = self.good;
        let values = read_run::<K>(self.heap, good)?;
        let values = values.as_slice();
        self.run("a place of 0", good).check_misfit::<K>(values, 0)?;
        self.run("a place of 47", good)
            .check_misfit::<K>(values, 47)?;
        self.run("a place of 49", good)
            .check_misfit::<K>(values, 49)?;
        self.run("a place of 96", good)
            .check_misfit::<K>(values, 96)
    }
}

#[test]
fn rules(rt: HostRuntime) -> Result<(), Fail> {
    let samples = Samples {
        heap: rt.alloc(),
        good: RULE,
        bad: PLAN,
    };
    samples.check::<RuleRecord>()
}

#[test]
fn plans(rt: HostRuntime) -> Result<(), Fail> {
    let samples = Samples {
        heap: rt.alloc(),
        good: PLAN,
        bad: WEEK,
    };
    samples.check::<PlanRecord>()
}

#[test]
fn sources(rt: HostRuntime) -> Result<(), Fail> {
    let samples = Samples {
        heap: rt.alloc(),
        good: WEEK,
        bad: RULE,
    };
    samples.check::<SourceRecord>()
}
