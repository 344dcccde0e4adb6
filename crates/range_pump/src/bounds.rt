// What a run asks of its runtime, its sources and its allocator.

use std::alloc::Allocator;
use std::io::Read;
use std::sync::Wait;
use std::thread::Threads;

/// A runtime that starts threads and waits for what they send, and that threads share.
pub trait ThreadRuntime: Wait + Threads + Sync {}

impl<R: Wait + Threads + Sync> ThreadRuntime for R {}

/// A source of the bytes of a file, which a pump takes to its thread.
pub trait FileSource: Read + Send + Drop {}

impl<S: Read + Send + Drop> FileSource for S {}

/// An allocator that threads share.
pub trait ThreadAllocator: Allocator + Clone + Send + Sync {}

impl<A: Allocator + Clone + Send + Sync> ThreadAllocator for A {}
