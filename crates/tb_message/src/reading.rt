//! From the bytes of a line to the request that they ask.
ghost use Rattle.std.specs.Prelude.{◌≡◌, ℕ, List, Some, IfOk, IfErr};
ghost use Rattle.serde_json.specs.Read.{read};
ghost use Rattle.serde_json.specs.View.{view};
ghost use Rattle.tb_message.specs.Requests.{Says, FaultOf, AnswerOf, IsRequestInRange};

use crate::object::Object;
use crate::plain::Plain;
use crate::query::{ReadFault, Request};
use crate::requests::request;
use json::Scratch;
use serde_json::{Category, Value};
use std::alloc::Global;

/// Reads requests one after another, and keeps the memory that it reads with.
#[derive(Drop)]
pub struct RequestReader {
    alloc: Global,
    scratch: Scratch,
}

impl RequestReader {
    /// A reader for texts of any length.
    pub fn new(alloc: Global) -> RequestReader {
        RequestReader {
            alloc,
            scratch: Scratch::new(alloc),
        }
    }

    /// Reads a request. `BadShape` carries the first member that fails, in the order of the kind.
    pub fn read(&mut self, bytes: &[u8]) -> Result<Request, ReadFault>
        ensures answer { AnswerOf bytes.now result }
        ensures in_range { IfOk result IsRequestInRange }
    {
        let Ok(text) = std::str::from_utf8(bytes) else {
            return Err(ReadFault::BadJson);
        };
        // What isn't plain goes into a tree, which also tells a text that is no JSON from one that nests.
        match Plain::read(self.alloc, text, &mut self.scratch) {
            Some(plain) => answer(&plain),
            None => answer(&parse(self.alloc, text)?),
        }
    }
}

// What the text of the object is answered.
fn answer<O: Object>(object: &O) -> Result<Request, ReadFault>
    ensures answer { (bytes : List ℕ) → Says bytes (O.said object.now) → AnswerOf bytes result }
    ensures in_range { IfOk result IsRequestInRange }
{
    match request(object) {
        Ok(request) => Ok(request),
        Err(field) => Err(ReadFault::BadShape(field)),
    }
}

fn parse(alloc: Global, text: &str) -> Result<Value, ReadFault>
    ensures ok { IfOk result (λ value. read text.now ≡ Some (view value)) }
    ensures bad { IfErr result (λ e. FaultOf text.now e) }
{
    match Value::from_str(alloc, text) {
        Ok(value) => Ok(value),
        Err(error) => match error.classify() {
            Category::Memory => Err(ReadFault::OutOfMemory),
            _ => Err(ReadFault::BadJson),
        },
    }
}

/// Reads one request. Who reads many keeps a `RequestReader`.
pub fn read_request(alloc: Global, bytes: &[u8]) -> Result<Request, ReadFault>
    ensures answer { AnswerOf bytes.now result }
    ensures in_range { IfOk result IsRequestInRange }
{
    RequestReader::new(alloc).read(bytes)
}
