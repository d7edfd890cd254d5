//! A descriptor that is read from an object, with one field more.

ghost use Rattle.std.specs.Prelude.{◌≡◌, Some};

use crate::frame::Reading;
use descriptors::Descriptor;
use property_keys::Value;

fn with_descriptor(reading: Reading, descriptor: Descriptor) -> Reading
    ensures { result ≡ record reading { descriptor = descriptor } }
{
    Reading {
        field: reading.field,
        object: reading.object,
        descriptor,
    }
}

pub(crate) fn with_enumerable(reading: Reading, flag: bool) -> Reading
    ensures { result ≡ record reading { descriptor = record reading.descriptor { enumerable = Some flag } } }
{
    let read = reading.descriptor;
    let descriptor = Descriptor {
        value: read.value,
        writable: read.writable,
        get: read.get,
        set: read.set,
        enumerable: Some(flag),
        configurable: read.configurable,
    };
    with_descriptor(reading, descriptor)
}

pub(crate) fn with_configurable(reading: Reading, flag: bool) -> Reading
    ensures { result ≡ record reading { descriptor = record reading.descriptor { configurable = Some flag } } }
{
    let read = reading.descriptor;
    let descriptor = Descriptor {
        value: read.value,
        writable: read.writable,
        get: read.get,
        set: read.set,
        enumerable: read.enumerable,
        configurable: Some(flag),
    };
    with_descriptor(reading, descriptor)
}

pub(crate) fn with_value(reading: Reading, value: Value) -> Reading
    ensures { result ≡ record reading { descriptor = record reading.descriptor { value = Some value } } }
{
    let read = reading.descriptor;
    let descriptor = Descriptor {
        value: Some(value),
        writable: read.writable,
        get: read.get,
        set: read.set,
        enumerable: read.enumerable,
        configurable: read.configurable,
    };
    with_descriptor(reading, descriptor)
}

pub(crate) fn with_writable(reading: Reading, flag: bool) -> Reading
    ensures { result ≡ record reading { descriptor = record reading.descriptor { writable = Some flag } } }
{
    let read = reading.descriptor;
    let descriptor = Descriptor {
        value: read.value,
        writable: Some(flag),
        get: read.get,
        set: read.set,
        enumerable: read.enumerable,
        configurable: read.configurable,
    };
    with_descriptor(reading, descriptor)
}

pub(crate) fn with_get(reading: Reading, value: Value) -> Reading
    ensures { result ≡ record reading { descriptor = record reading.descriptor { get = Some value } } }
{
    let read = reading.descriptor;
    let descriptor = Descriptor {
        value: read.value,
        writable: read.writable,
        get: Some(value),
        set: read.set,
        enumerable: read.enumerable,
        configurable: read.configurable,
    };
    with_descriptor(reading, descriptor)
}

pub(crate) fn with_set(reading: Reading, value: Value) -> Reading
    ensures { result ≡ record reading { descriptor = record reading.descriptor { set = Some value } } }
{
    let read = reading.descriptor;
    let descriptor = Descriptor {
        value: read.value,
        writable: read.writable,
        get: read.get,
        set: Some(value),
        enumerable: read.enumerable,
        configurable: read.configurable,
    };
    with_descriptor(reading, descriptor)
}
